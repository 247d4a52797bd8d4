//! The heaviest paths of a pair.
ghost use Rattle.std.specs.Prelude.{◌≡◌, ◌<◌, IfOk, length};
ghost use Rattle.te_model.specs.Apportion.{comes_before};
ghost use Rattle.path_budget.specs.Budget.{heaviest, is_heavy, weight_at};

use std::alloc::Global;
use te_model::{Items, Memory, PathShare};

/// Whether the path at place `j` comes before the one at place `i`: by the greater weight, and at
/// the same weight by the place.
fn comes_before(paths: &[PathShare], j: usize, i: usize) -> bool
    requires first { j < length paths.now }
    requires second { i < length paths.now }
    ensures { result ≡ comes_before (weight_at paths.now) j i }
{
    let a = paths[j].weight;
    let b = paths[i].weight;
    b < a || (a == b && j < i)
}

/// Whether fewer than `budget` paths come before the one at the place.
fn is_heavy(paths: &[PathShare], budget: u32, place: usize) -> bool
    requires { place < length paths.now }
    ensures { result ≡ is_heavy budget paths.now place }
{
    let mut before = 0;
    for j in 0..paths.len() {
        if comes_before(paths, j, place) {
            before += 1;
        }
    }
    before < u64::from(budget)
}

/// The `budget` heaviest paths in their order, ties to the earlier.
pub fn heaviest(alloc: Global, paths: &[PathShare], budget: u32) -> Result<Vec<PathShare>, Memory>
    ensures { IfOk result (λ kept. kept.items ≡ heaviest budget paths.now) }
{
    let mut kept = Vec::new(alloc);
    for i in 0..paths.len() {
        if is_heavy(paths, budget, i) {
            let links = Vec::from_slice(alloc, paths[i].links.as_slice())?;
            kept.push(PathShare {
                links: Items::new(links),
                weight: paths[i].weight,
            })?;
        }
    }
    Ok(kept)
}
