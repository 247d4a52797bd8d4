//! The matrix of the first step of a series.
ghost use Rattle.std.specs.Prelude.{◌≡◌, IfOk};
ghost use Rattle.traffic_matrix.specs.First.{first_matrix};

use crate::series::Series;
use std::alloc::Global;
use te_model::{Items, Matrix, Memory};

/// The matrix of step 0, or no demand of any pair where there is no step.
///
/// # Errors
///
/// Only `Memory`, where memory runs out.
pub fn first_matrix(alloc: Global, series: &Series) -> Result<Matrix, Memory>
    ensures { IfOk result (λ m. m ≡ first_matrix series.now) }
{
    let demand = match series.steps.as_slice().first() {
        Some(matrix) => Vec::from_slice(alloc, matrix.demand.as_slice())?,
        None => vec![in alloc; 0; series.pairs.list.as_slice().len()]?,
    };
    Ok(Matrix {
        demand: Items::new(demand),
    })
}
