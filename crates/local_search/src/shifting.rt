//! Moves of weight, made.
ghost use Rattle.std.specs.Prelude.{◌≡◌, ◌<◌, ◌≤◌, ◌^◌, ℕ, All, IfOk, IsTrue, OnOk, length, min, slice_index};
ghost use Rattle.te_model.specs.Path.{routes_at};
ghost use Rattle.routing.specs.Merge.{links_at, path_at};
ghost use Rattle.routing.specs.Routes.{AreDemands};
ghost use Rattle.routing.specs.Split.{are_splits, total_weight};
ghost use Rattle.local_search.specs.Moves.{IsMoved, IsShift};
ghost use Rattle.local_search.specs.Search.{loads_moved};
ghost use Rattle.local_search.specs.Shifting.{IsLessened};

use crate::loads::carry_over;
use crate::step::Move;
use routing::merge;
use std::alloc::Global;
use std::mem;
use te_model::{Items, Matrix, Memory, PairRoutes, PathShare};

/// Takes the units off the path at the place, and the path out where none are left.
fn take_off(paths: &mut Vec<PathShare>, from: usize, units: u64)
    requires place { from < length paths.old.items }
    requires enough { units ≤ (path_at paths.old.items from).weight }
    requires positive { All (λ s. 1 ≤ s.weight) paths.old.items }
    ensures { IsLessened paths.old.items from units paths.new.items }
{
    if paths[from].weight == units {
        paths.remove(from);
    } else {
        paths[from].weight -= units;
    }
}

/// The paths after a move of this size from the path at the place, or of the whole weight of the path where it is less.
///
/// `Memory` comes where memory is wanting.
pub fn paths_after(
    alloc: Global,
    mut paths: Vec<PathShare>,
    from: usize,
    to: &[u32],
    size: u64,
) -> Result<Vec<PathShare>, Memory>
    requires place { from < length paths.items }
    requires positive { All (λ s. 1 ≤ s.weight) paths.items }
    requires whole { total_weight paths.items ≤ 2 ^ 32 }
    requires size { 1 ≤ size }
    ensures { IfOk result (λ new. IsShift paths.items (links_at paths.items from) to.now (min size (path_at paths.items from).weight) new.items) }
{
    let units = size.min(paths[from].weight);
    take_off(&mut paths, from, units);
    let links = Vec::from_slice(alloc, to)?;
    paths.push(PathShare {
        links: Items::new(links),
        weight: units,
    })?;
    merge(alloc, paths)
}

/// Makes the move among the routes.
///
/// `Memory` comes where memory is wanting.
pub fn take_move(
    alloc: Global,
    routes: &mut [PairRoutes],
    candidates: &[PairRoutes],
    step: Move,
) -> Result<(), Memory>
    requires splits { IsTrue (are_splits routes.old) }
    requires pairs { length candidates.now ≡ length routes.old }
    requires pair { step.pair < length routes.old }
    requires from { step.from < length (routes_at routes.old step.pair).paths }
    requires to { step.target.candidate < length (routes_at candidates.now step.pair).paths }
    requires size { 1 ≤ step.target.size }
    ensures { OnOk result (IsMoved routes.old step.pair step.from (links_at (routes_at candidates.now step.pair).paths step.target.candidate) step.target.size routes.new) }
{
    let to = candidates[step.pair].paths.as_slice()[step.target.candidate]
        .links
        .as_slice();
    let pair = routes[step.pair].pair;
    let empty = PairRoutes {
        pair,
        paths: Items::new(Vec::new(alloc)),
    };
    let old = mem::replace(&mut routes[step.pair], empty);
    let paths = paths_after(alloc, old.paths.into_vec(), step.from, to, step.target.size)?;
    routes[step.pair] = PairRoutes {
        pair,
        paths: Items::new(paths),
    };
    Ok(())
}

/// Takes what the move takes of the demand from the loads of one path's links to those of the other.
pub fn carry_move(
    matrix: &Matrix,
    routes: &[PairRoutes],
    candidates: &[PairRoutes],
    loads: &mut [u128],
    step: Move,
)
    requires demands { AreDemands (length routes.now) matrix.now.demand }
    requires pairs { length candidates.now ≡ length routes.now }
    requires pair { step.pair < length routes.now }
    requires from { step.from < length (routes_at routes.now step.pair).paths }
    requires to { step.target.candidate < length (routes_at candidates.now step.pair).paths }
    requires size { step.target.size ≤ 1000000 }
    requires links { length loads.old < 2 ^ 32 }
    requires small { All (λ x. x < 2 ^ 84) loads.old }
    ensures { (e : ℕ) → e < length loads.old → slice_index loads.new e ≡ loads_moved loads.old (slice_index matrix.now.demand step.pair) (path_at (routes_at routes.now step.pair).paths step.from) (links_at (routes_at candidates.now step.pair).paths step.target.candidate) step.target.size e }
{
    let path = &routes[step.pair].paths.as_slice()[step.from];
    let to = candidates[step.pair].paths.as_slice()[step.target.candidate]
        .links
        .as_slice();
    let demand = matrix.demand.as_slice()[step.pair];
    let amount = u128::from(demand) * u128::from(step.target.size.min(path.weight));
    carry_over(loads, path.links.as_slice(), to, amount);
}
