//! The chain of centers from one node to another.
ghost use Rattle.std.specs.Prelude.{◌≡◌, ◌++◌, ◌<◌, ◌≤◌, ℕ, IfOk, OnOk};
ghost use Rattle.tree_embed.specs.Chains.{IsChainOf, IsLowestShared, centers_between, centers_down, centers_up};
ghost use Rattle.tree_embed.specs.Tables.{IsCenterTable, center_in};

use crate::centers::TOP_LEVEL;
use std::alloc::Global;
use te_model::{Items, Memory};

/// The center of the node at the level.
pub fn center_in(centers: &[Items<u32>], level: u32, node: u32) -> u32
    requires table { (n : ℕ) × IsCenterTable n centers.now × (node < n) }
    requires level { level ≤ TOP_LEVEL }
    ensures { result ≡ center_in centers.now level node }
{
    centers[level as usize].as_slice()[node as usize]
}

/// The lowest level from which up to the top the centers of the two nodes agree.
fn lowest_shared(centers: &[Items<u32>], v: u32, w: u32) -> u32
    requires table { (n : ℕ) × IsCenterTable n centers.now × (v < n) × (w < n) }
    requires top { center_in centers.now TOP_LEVEL v ≡ center_in centers.now TOP_LEVEL w }
    ensures { IsLowestShared (center_in centers.now) v w result }
{
    for level in (0..TOP_LEVEL).rev() {
        if center_in(centers, level, v) != center_in(centers, level, w) {
            return level + 1;
        }
    }
    0
}

/// Adds the centers of the node at the levels from 1 up to `top`.
fn climb(stops: &mut Vec<u32>, centers: &[Items<u32>], node: u32, top: u32) -> Result<(), Memory>
    requires table { (n : ℕ) × IsCenterTable n centers.now × (node < n) }
    requires top { top ≤ TOP_LEVEL }
    ensures { OnOk result (stops.new.items ≡ stops.old.items ++ centers_up (center_in centers.now) node top) }
{
    for level in 1..top + 1 {
        stops.push(center_in(centers, level, node))?;
    }
    Ok(())
}

/// Adds the centers of the node at the levels from `top` down to 1.
fn descend(stops: &mut Vec<u32>, centers: &[Items<u32>], node: u32, top: u32) -> Result<(), Memory>
    requires table { (n : ℕ) × IsCenterTable n centers.now × (node < n) }
    requires top { top ≤ TOP_LEVEL }
    ensures { OnOk result (stops.new.items ≡ stops.old.items ++ centers_down (center_in centers.now) node top) }
{
    for level in (1..top + 1).rev() {
        stops.push(center_in(centers, level, node))?;
    }
    Ok(())
}

/// Adds the centers between the two nodes, where `shared` is the lowest level that they share.
fn cross(
    stops: &mut Vec<u32>,
    centers: &[Items<u32>],
    v: u32,
    w: u32,
    shared: u32,
) -> Result<(), Memory>
    requires table { (n : ℕ) × IsCenterTable n centers.now × (v < n) × (w < n) }
    requires level { shared ≤ TOP_LEVEL }
    ensures { OnOk result (stops.new.items ≡ stops.old.items ++ centers_between (center_in centers.now) v w shared) }
{
    if shared == 0 {
        stops.push(center_in(centers, 0, v))?;
        return Ok(());
    }
    climb(stops, centers, v, shared)?;
    descend(stops, centers, w, shared - 1)
}

/// The chain from one node to another, in which no two neighbours are equal.
pub fn chain_of(alloc: Global, centers: &[Items<u32>], v: u32, w: u32) -> Result<Vec<u32>, Memory>
    requires table { (n : ℕ) × IsCenterTable n centers.now × (v < n) × (w < n) }
    requires top { center_in centers.now TOP_LEVEL v ≡ center_in centers.now TOP_LEVEL w }
    ensures { IfOk result (λ chain. IsChainOf (center_in centers.now) v w chain.items) }
{
    let shared = lowest_shared(centers, v, w);
    let mut chain = Vec::new(alloc);
    chain.push(v)?;
    cross(&mut chain, centers, v, w, shared)?;
    chain.push(w)?;
    chain.dedup();
    Ok(chain)
}
