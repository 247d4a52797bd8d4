//! Flows taken apart into weighted paths.
ghost use Rattle.std.specs.Prelude.{◌≡◌, ◌≢◌, ◌+◌, ◌<◌, ◌≤◌, ◌^◌, ℕ, All, IfOk, IsTrue, length, slice_index};
ghost use Rattle.te_model.specs.declared.units.TheConstants.{SHARE_UNIT};
ghost use Rattle.te_model.specs.Network.{is_well_formed, link_count, node_count};
ghost use Rattle.te_model.specs.Path.{is_distinct, weight_on, amount_on};
ghost use Rattle.te_model.specs.PathRouting.{IsPathSplit};
ghost use Rattle.routing.specs.Decomposition.{HasFlowOut, IsAcyclicFlow, IsDecomposition, IsLeastOn, IsLowestLink, IsLowestPath, IsTakenOff};

use std::alloc::Global;
use te_model::{Items, Memory, Network, Pair, PathShare, SHARE_UNIT};

/// The lowest link that leaves the node and has flow.
fn lowest_link(net: &Network, flow: &[u64], node: u32) -> u32
    requires links { link_count net.now < 2 ^ 32 }
    requires count { length flow.now ≡ link_count net.now }
    requires some { HasFlowOut net.now (slice_index flow.now) node }
    ensures { IsLowestLink net.now (slice_index flow.now) node result }
{
    let links = net.links.as_slice();
    let mut h = 0;
    while links[h].tail != node || flow[h] == 0 {
        h += 1;
    }
    h as u32
}

/// The path that goes on at each node by the lowest link with flow.
fn lowest_path(
    alloc: Global,
    net: &Network,
    flow: &[u64],
    src: u32,
    dst: u32,
) -> Result<Vec<u32>, Memory>
    requires network { IsTrue (is_well_formed net.now) }
    requires count { length flow.now ≡ link_count net.now }
    requires src { src < node_count net.now }
    requires apart { src ≢ dst }
    requires flow { (amount : ℕ) × (0 < amount) × IsAcyclicFlow net.now (slice_index flow.now) amount src dst }
    ensures { IfOk result (λ path. IsLowestPath net.now (slice_index flow.now) src dst path.items) }
{
    let mut path = Vec::new(alloc);
    let mut node = src;
    while node != dst {
        let h = lowest_link(net, flow, node);
        path.push(h)?;
        node = net.links.as_slice()[h as usize].head;
    }
    Ok(path)
}

/// The least flow on a link of the path.
fn least_on(flow: &[u64], path: &[u32]) -> u64
    requires some { 0 < length path.now }
    requires links { All (λ h. h < length flow.now) path.now }
    ensures { IsLeastOn (slice_index flow.now) path.now result }
{
    let mut least = flow[path[0] as usize];
    for h in path {
        least = least.min(flow[*h as usize]);
    }
    least
}

/// Takes the weight off the flow on each link of the path.
fn take_off(flow: &mut [u64], path: &[u32], weight: u64)
    requires links { All (λ h. h < length flow.old) path.now }
    requires distinct { IsTrue (is_distinct path.now) }
    requires enough { All (λ h. weight ≤ slice_index flow.old h) path.now }
    ensures { (h : ℕ) → slice_index flow.old h ≡ slice_index flow.new h + amount_on path.now weight h }
{
    for h in path {
        flow[*h as usize] -= weight;
    }
}

/// Takes the lowest path with the least flow on it off the flow.
fn take_path(
    alloc: Global,
    net: &Network,
    pair: Pair,
    left: &mut [u64],
) -> Result<PathShare, Memory>
    requires network { IsTrue (is_well_formed net.now) }
    requires count { length left.old ≡ link_count net.now }
    requires src { pair.src < node_count net.now }
    requires apart { pair.src ≢ pair.dst }
    requires flow { (amount : ℕ) × (0 < amount) × IsAcyclicFlow net.now (slice_index left.old) amount pair.src pair.dst }
    ensures { IfOk result (λ path. IsTakenOff net.now pair.src pair.dst (slice_index left.old) path (slice_index left.new)) }
{
    let links = lowest_path(alloc, net, left, pair.src, pair.dst)?;
    let path = links.as_slice();
    let weight = least_on(left, path);
    take_off(left, path, weight);
    Ok(PathShare {
        links: Items::new(links),
        weight,
    })
}

/// Takes the flow from the source of the pair to its destination apart into weighted paths (Ford
/// and Fulkerson, 1962). From the source the path goes on at each node by the lowest link that has
/// flow left, and takes off the least flow that is left on it, until none is left.
///
/// `flow` has one number for each link, in millionths of the pair's demand. The paths strictly
/// ascend by their lists of links. `Memory` comes where memory is wanting.
pub fn decompose(
    alloc: Global,
    net: &Network,
    pair: Pair,
    flow: &[u64],
) -> Result<Vec<PathShare>, Memory>
    requires network { IsTrue (is_well_formed net.now) }
    requires src { pair.src < node_count net.now }
    requires dst { pair.dst < node_count net.now }
    requires apart { pair.src ≢ pair.dst }
    requires count { length flow.now ≡ link_count net.now }
    requires flow { IsAcyclicFlow net.now (slice_index flow.now) SHARE_UNIT pair.src pair.dst }
    ensures taken { IfOk result (λ paths. IsDecomposition net.now pair.src pair.dst (slice_index flow.now) paths.items) }
    ensures split { IfOk result (λ paths. IsPathSplit net.now (record { pair = pair; paths = paths.items })) }
    ensures shares { IfOk result (λ paths. (h : ℕ) → h < link_count net.now → weight_on paths.items h ≡ slice_index flow.now h) }
    ensures few { IfOk result (λ paths. length paths.items ≤ link_count net.now) }
{
    let mut left = Vec::from_slice(alloc, flow)?;
    let mut amount = SHARE_UNIT;
    let mut paths = Vec::new(alloc);
    while amount > 0 {
        let path = take_path(alloc, net, pair, &mut left)?;
        amount -= path.weight;
        paths.push(path)?;
    }
    Ok(paths)
}
