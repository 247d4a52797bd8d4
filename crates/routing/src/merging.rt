//! Equal paths taken together.
ghost use Rattle.std.specs.Prelude.{◌≡◌, ◌+◌, ◌<◌, ◌≤◌, ◌^◌, ℕ, suc, true, false, IfOk, OnOk, IsTrue, length};
ghost use Rattle.te_model.specs.Validity.{list_below, paths_ascend};
ghost use Rattle.routing.specs.Split.{total_weight};
ghost use Rattle.routing.specs.Merge.{IsAdded, IsMerge, links_at};

use crate::order::is_list_below;
use std::alloc::Global;
use te_model::{Memory, PathShare};

/// The place of the links among ascending paths: behind those that come before them.
fn place_of(paths: &[PathShare], links: &[u32]) -> usize
    ensures within { result ≤ length paths.now }
    ensures before { (k : ℕ) → suc k ≡ result → list_below (links_at paths.now k) links.now ≡ true }
    ensures after { result < length paths.now → list_below (links_at paths.now result) links.now ≡ false }
{
    let mut place = paths.len();
    while place > 0 && !is_list_below(paths[place - 1].links.as_slice(), links) {
        place -= 1;
    }
    place
}

/// Adds a path to ascending paths, or its weight to that of the equal path.
fn add(merged: &mut Vec<PathShare>, part: PathShare) -> Result<(), Memory>
    requires ascending { IsTrue (paths_ascend merged.old.items) }
    requires fits { total_weight merged.old.items + part.weight ≤ 2 ^ 32 }
    ensures { OnOk result (IsAdded merged.old.items part merged.new.items) }
{
    let place = place_of(merged.as_slice(), part.links.as_slice());
    if place < merged.len() && merged[place].links.as_slice() == part.links.as_slice() {
        merged[place].weight += part.weight;
    } else {
        merged.insert(place, part)?;
    }
    Ok(())
}

/// The parts in the order of their lists of links, with the weights of equal lists added.
///
/// `Memory` comes where memory is wanting.
pub fn merge(alloc: Global, parts: Vec<PathShare>) -> Result<Vec<PathShare>, Memory>
    requires { total_weight parts.items ≤ 2 ^ 32 }
    ensures { IfOk result (λ merged. IsMerge parts.items merged.items) }
{
    let mut merged = Vec::new(alloc);
    for part in parts {
        add(&mut merged, part)?;
    }
    Ok(merged)
}
