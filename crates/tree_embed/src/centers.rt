//! The centers of all nodes at all levels.
ghost use Rattle.std.specs.Prelude.{◌≡◌, ◌+◌, ◌<◌, ◌≤◌, All, IfOk, find, length, map, unwrap_or};
ghost use Rattle.std.specs.List.{range_with_len};
ghost use Rattle.te_model.specs.declared.limits.TheConstants.{FORMAT_2};
ghost use Rattle.tree_embed.specs.Centers.{radius};
ghost use Rattle.tree_embed.specs.Tables.{IsSquare, center_of, is_within};

use crate::sums::is_within;
use std::alloc::Global;
use te_model::{Items, Memory};

/// The level at which all nodes have the same center. The radius of the level below it is at least
/// 2^35, which is more than any least sum of lengths.
pub const TOP_LEVEL: u32 = 36;

/// The radius of a level: the scale in sixteenths, doubled at each level and rounded down.
fn radius(scale: u32, level: u32) -> u64
    requires scale { scale ≤ 31 }
    requires level { level < TOP_LEVEL }
    ensures { result ≡ radius scale level }
{
    (u64::from(scale) << level) / 16
}

/// The first in the order within the radius of the node.
fn first_within(sums: &[Items<Option<u64>>], order: &[u32], radius: u64, node: u32) -> Option<u32>
    requires sums { IsSquare (length sums.now) sums.now }
    requires order { All (λ u. u < length sums.now) order.now }
    requires node { node < length sums.now }
    ensures { result ≡ find (λ u. is_within sums.now radius u node) order.now }
{
    for u in order {
        if is_within(sums, radius, *u, node) {
            return Some(*u);
        }
    }
    None
}

/// The center of the node at the level.
fn center_of(sums: &[Items<Option<u64>>], order: &[u32], scale: u32, level: u32, node: u32) -> u32
    requires sums { IsSquare (length sums.now) sums.now }
    requires order { All (λ u. u < length sums.now) order.now }
    requires some { 0 < length order.now }
    requires scale { scale ≤ 31 }
    requires node { node < length sums.now }
    ensures { result ≡ center_of sums.now order.now scale level node }
{
    if level < TOP_LEVEL {
        first_within(sums, order, radius(scale, level), node).unwrap_or(node)
    } else {
        order[0]
    }
}

/// The center of each node at the level.
fn row_of(
    alloc: Global,
    sums: &[Items<Option<u64>>],
    order: &[u32],
    scale: u32,
    level: u32,
) -> Result<Items<u32>, Memory>
    requires sums { IsSquare (length sums.now) sums.now }
    requires few { length sums.now ≤ FORMAT_2.nodes }
    requires order { All (λ u. u < length sums.now) order.now }
    requires some { 0 < length order.now }
    requires scale { scale ≤ 31 }
    ensures { IfOk result (λ row. row ≡ map (center_of sums.now order.now scale level) (range_with_len 0 (length sums.now))) }
{
    let mut row = Vec::with_capacity(alloc, sums.len())?;
    for node in 0..sums.len() {
        row.push(center_of(sums, order, scale, level, node as u32))?;
    }
    Ok(Items::new(row))
}

/// For each level the centers of all nodes.
pub fn centers_of(
    alloc: Global,
    sums: &[Items<Option<u64>>],
    order: &[u32],
    scale: u32,
) -> Result<Vec<Items<u32>>, Memory>
    requires sums { IsSquare (length sums.now) sums.now }
    requires few { length sums.now ≤ FORMAT_2.nodes }
    requires order { All (λ u. u < length sums.now) order.now }
    requires some { 0 < length order.now }
    requires scale { scale ≤ 31 }
    ensures { IfOk result (λ rows. rows.items ≡ map (λ level. map (center_of sums.now order.now scale level) (range_with_len 0 (length sums.now))) (range_with_len 0 (TOP_LEVEL + 1))) }
{
    let mut rows = Vec::with_capacity(alloc, TOP_LEVEL as usize + 1)?;
    for level in 0..TOP_LEVEL + 1 {
        let row = row_of(alloc, sums, order, scale, level)?;
        rows.push(row)?;
    }
    Ok(rows)
}
