//! The paths of two routings, side by side: two ascending lists for each pair, in one walk.
ghost use Rattle.std.specs.Prelude.{◌≡◌, ◌⊎◌, ◌++◌, ◌-◌, ◌^◌, ◌<◌, ◌≤◌, List, All, IfOk, OnOk, IsTrue, length, if◌then◌else◌};
ghost use Rattle.te_model.specs.Validity.{paths_ascend};
ghost use Rattle.routing.specs.Merge.{links_at};
ghost use Rattle.routing.specs.Split.{are_splits};
ghost use Rattle.update_plan.specs.Paths.{ArePaths, AreSideBySide};
ghost use Rattle.update_plan.specs.Walk.{comes_next, is_left, next_update, next_weight, place_after};
ghost use Rattle.update_plan.specs.declared.path.UpdatePath.{UpdatePath};

use crate::path::UpdatePath;
use routing::is_list_below;
use std::alloc::Global;
use te_model::{Items, Memory, PairRoutes, PathShare};

/// Whether path `i` is there, and path `j` of the others does not come before it.
fn comes_next(paths: &[PathShare], i: usize, others: &[PathShare], j: usize) -> bool
    ensures next { result ≡ comes_next paths.now i others.now j }
    ensures inside { IsTrue result → i < length paths.now }
    ensures fits { IsTrue result → i < 2 ^ 64 - 1 }
{
    i < paths.len()
        && !(j < others.len()
            && is_list_below(others[j].links.as_slice(), paths[i].links.as_slice()))
}

/// The weight of path `i`, or 0 where it does not come next.
fn next_weight(paths: &[PathShare], i: usize, others: &[PathShare], j: usize) -> u64
    ensures { result ≡ next_weight paths.now i others.now j }
{
    if comes_next(paths, i, others, j) {
        paths[i].weight
    } else {
        0
    }
}

/// The links of the next path.
fn next_links<'a>(before: &'a [PathShare], i: usize, after: &'a [PathShare], j: usize) -> &'a [u32]
    requires { IsTrue (comes_next before.now i after.now j) ⊎ (j < length after.now) }
    ensures { result.now ≡ (if comes_next before.now i after.now j then links_at before.now i else links_at after.now j) }
{
    if comes_next(before, i, after, j) {
        before[i].links.as_slice()
    } else {
        after[j].links.as_slice()
    }
}

/// The next path of the pair.
fn next_update(
    alloc: Global,
    pair: u32,
    before: &[PathShare],
    i: usize,
    after: &[PathShare],
    j: usize,
) -> Result<UpdatePath, Memory>
    requires { IsTrue (comes_next before.now i after.now j) ⊎ (j < length after.now) }
    ensures { IfOk result (λ u. u ≡ next_update pair before.now i after.now j) }
{
    let links = Vec::from_slice(alloc, next_links(before, i, after, j))?;
    Ok(UpdatePath {
        pair,
        before: next_weight(before, i, after, j),
        after: next_weight(after, j, before, i),
        links: Items::new(links),
    })
}

fn is_left(before: &[PathShare], i: usize, after: &[PathShare], j: usize) -> bool
    ensures { result ≡ is_left before.now i after.now j }
{
    i < before.len() || j < after.len()
}

fn place_after(taken: bool, place: usize) -> usize
    requires { IsTrue taken → place < 2 ^ 64 - 1 }
    ensures { result ≡ place_after taken place }
{
    if taken { place + 1 } else { place }
}

/// Adds the paths of a pair, which are those of two splits of it.
fn add_pair(
    alloc: Global,
    paths: &mut Vec<UpdatePath>,
    pair: u32,
    before: &[PathShare],
    after: &[PathShare],
) -> Result<(), Memory>
    requires before_ascend { IsTrue (paths_ascend before.now) }
    requires after_ascend { IsTrue (paths_ascend after.now) }
    requires before_some { All (λ s. 1 ≤ s.weight) before.now }
    requires after_some { All (λ s. 1 ≤ s.weight) after.now }
    ensures { OnOk result ((own : List UpdatePath) × (paths.new.items ≡ paths.old.items ++ own) × AreSideBySide pair before.now after.now own) }
{
    let mut i = 0;
    let mut j = 0;
    'walk: while is_left(before, i, after, j) {
        let in_before = comes_next(before, i, after, j);
        let in_after = comes_next(after, j, before, i);
        paths.push(next_update(alloc, pair, before, i, after, j)?)?;
        i = place_after(in_before, i);
        j = place_after(in_after, j);
    }
    Ok(())
}

/// The paths of each pair in either routing: those of pair 0, then of pair 1, and so on.
///
/// `Memory` comes where memory is wanting.
pub fn paths_of(
    alloc: Global,
    before: &[PairRoutes],
    after: &[PairRoutes],
) -> Result<Vec<UpdatePath>, Memory>
    requires count { length after.now ≡ length before.now }
    requires few { length before.now < 2 ^ 32 }
    requires before { IsTrue (are_splits before.now) }
    requires after { IsTrue (are_splits after.now) }
    ensures { IfOk result (λ paths. ArePaths (length before.now) before.now after.now paths.items) }
{
    let mut paths = Vec::new(alloc);
    for p in 0..before.len() {
        add_pair(
            alloc,
            &mut paths,
            p as u32,
            before[p].paths.as_slice(),
            after[p].paths.as_slice(),
        )?;
    }
    Ok(paths)
}
