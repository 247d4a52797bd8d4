//! The envelope of a series: the matrices between the least and the greatest demand of each pair over the steps.
ghost use Rattle.std.specs.Prelude.{◌≡◌, IfOk};
ghost use Rattle.experiment.specs.Envelope.{envelope_of, greatest_demand, least_demand};

use std::alloc::Global;
use te_model::{DemandSet, Items, Matrix, Memory, number_at};
use traffic_matrix::Series;

/// The greatest demand of the pair over the steps, or 0 without a step.
fn greatest_demand(steps: &[Matrix], pair: usize) -> u64
    ensures { result ≡ greatest_demand steps.now pair }
{
    let mut greatest = 0;
    for step in steps {
        greatest = greatest.max(number_at(step.demand.as_slice(), pair));
    }
    greatest
}

/// The least demand of the pair over the steps, or 0 without a step.
fn least_demand(steps: &[Matrix], pair: usize) -> u64
    ensures { result ≡ least_demand steps.now pair }
{
    let mut least = greatest_demand(steps, pair);
    for step in steps {
        least = least.min(number_at(step.demand.as_slice(), pair));
    }
    least
}

/// The matrices between the least and the greatest demand of each declared pair over the steps.
pub fn envelope_of(alloc: Global, series: &Series) -> Result<DemandSet, Memory>
    ensures { IfOk result (λ set. set ≡ envelope_of series.now) }
{
    let steps = series.steps.as_slice();
    let pairs = series.pairs.list.as_slice().len();
    let mut lower = Vec::with_capacity(alloc, pairs)?;
    let mut upper = Vec::with_capacity(alloc, pairs)?;
    for p in 0..pairs {
        lower.push(least_demand(steps, p))?;
        upper.push(greatest_demand(steps, p))?;
    }
    Ok(DemandSet::Box {
        lower: Matrix {
            demand: Items::new(lower),
        },
        upper: Matrix {
            demand: Items::new(upper),
        },
    })
}
