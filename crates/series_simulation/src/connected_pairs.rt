//! The declared pairs that have a path, and the matrix of these pairs.
ghost use Rattle.std.specs.Prelude.{◌≡◌, IfOk, length, filter};
ghost use Rattle.series_simulation.specs.Connected.{demands_of, connects};

use crate::reachability::Reachability;
use std::alloc::Global;
use te_model::{Items, Matrix, Memory, Pairs};

/// The pairs that have a path, in order.
pub fn connected_pairs(alloc: Global, reach: &Reachability, pairs: &Pairs) -> Result<Pairs, Memory>
    ensures { IfOk result (λ p. p.list ≡ filter (connects reach.now) pairs.now.list) }
{
    let mut list = Vec::new(alloc);
    for pair in pairs.list.as_slice() {
        let has_path = reach.connects(*pair);
        if has_path {
            list.push(*pair)?;
        }
    }
    Ok(Pairs {
        list: Items::new(list),
    })
}

/// The matrix of these pairs. `matrix` has one demand for each of `pairs`.
pub fn connected_matrix(
    alloc: Global,
    reach: &Reachability,
    pairs: &Pairs,
    matrix: &Matrix,
) -> Result<Matrix, Memory>
    requires { length matrix.now.demand ≡ length pairs.now.list }
    ensures { IfOk result (λ m. m.demand ≡ demands_of (connects reach.now) pairs.now.list matrix.now.demand) }
{
    let list = pairs.list.as_slice();
    let demand = matrix.demand.as_slice();
    let mut kept = Vec::new(alloc);
    for place in 0..list.len() {
        if reach.connects(list[place]) {
            kept.push(demand[place])?;
        }
    }
    Ok(Matrix {
        demand: Items::new(kept),
    })
}
