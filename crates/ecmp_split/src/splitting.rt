//! The flow of one pair, split equally over the next links at each node.
ghost use Rattle.std.specs.Prelude.{◌≡◌, ◌+◌, ◌^◌, ◌<◌, ◌≤◌, ℕ, IfOk, IfNone, IfSome, IsTrue, length, slice_index, slice_set};
ghost use Rattle.te_model.specs.declared.units.TheConstants.{SHARE_UNIT};
ghost use Rattle.te_model.specs.Network.{is_well_formed, link_count, node_count};
ghost use Rattle.routing.specs.Decomposition.{IsAcyclicFlow};
ghost use Rattle.scheme.specs.Reach.{IsPairOf};
ghost use Rattle.shortest_path.specs.Paths.{HasPath};
ghost use Rattle.ecmp_split.specs.Equal.{IsEqualSplit, equal_part, next_part};
ghost use Rattle.ecmp_split.specs.Hops.{AreNextHops};

use crate::hops::{NextHops, next_hops};
use shortest_path::{Direction, Searches};
use std::alloc::Global;
use te_model::{Memory, Network, Pair, SHARE_UNIT};

/// One of `count` equal parts of the units. The units left over go to the first parts.
fn equal_part(units: u64, count: u64, place: u64) -> u64
    requires some { 0 < count }
    requires units { units ≤ SHARE_UNIT }
    ensures { result ≡ equal_part units count place }
{
    units / count + u64::from(place < units % count)
}

/// Adds the units to those that have arrived at the node.
fn add_arrival(arrived: &mut [u64], node: u32, units: u64)
    requires node { node < length arrived.old }
    requires fits { slice_index arrived.old node + units < 2 ^ 64 }
    ensures { arrived.new ≡ slice_set arrived.old node (slice_index arrived.old node + units) }
{
    arrived[node as usize] += units;
}

/// Splits one million units at the source over the next links, and again at each node that they
/// reach. The links of the farthest nodes come first, so that all units have arrived at a node
/// before one leaves it.
fn share_out(alloc: Global, net: &Network, hops: &NextHops, src: u32) -> Result<Vec<u64>, Memory>
    requires network { IsTrue (is_well_formed net.now) }
    requires hops { (t : ℕ) × AreNextHops net.now t hops.now }
    requires src { src < node_count net.now }
    ensures count { IfOk result (λ flow. length flow.items ≡ link_count net.now) }
    ensures parts { IfOk result (λ flow. (h : ℕ) → h < link_count net.now → slice_index flow.items h ≡ next_part net.now hops.now.costs (slice_index flow.items) src h) }
{
    let links = net.links.as_slice();
    let counts = hops.counts.as_slice();
    let mut waiting = Vec::from_slice(alloc, hops.links.as_slice())?;
    let mut flow: Vec<u64> = vec![in alloc; 0; links.len()]?;
    let mut arrived: Vec<u64> = vec![in alloc; 0; counts.len()]?;
    arrived[src as usize] = SHARE_UNIT;
    while let Some(next) = waiting.pop() {
        let link = links[next.link as usize];
        let tail = link.tail as usize;
        let part = equal_part(arrived[tail], counts[tail], next.place);
        flow[next.link as usize] = part;
        add_arrival(&mut arrived, link.head, part);
    }
    Ok(flow)
}

/// The flow of `split`, by the next hops toward the destination of the pair.
///
/// `Memory` comes where memory is wanting.
pub fn split_by(
    alloc: Global,
    net: &Network,
    hops: &NextHops,
    pair: Pair,
) -> Result<Option<Vec<u64>>, Memory>
    requires network { IsTrue (is_well_formed net.now) }
    requires pair { IsPairOf net.now pair }
    requires hops { AreNextHops net.now pair.dst hops.now }
    ensures none { IfOk result (λ o. IfNone o (HasPath net.now pair.src pair.dst → ⊥)) }
    ensures reached { IfOk result (λ o. IfSome o (λ _. HasPath net.now pair.src pair.dst)) }
    ensures count { IfOk result (λ o. IfSome o (λ flow. length flow.items ≡ link_count net.now)) }
    ensures split { IfOk result (λ o. IfSome o (λ flow. IsEqualSplit net.now pair.src pair.dst (slice_index flow.items))) }
    ensures flow { IfOk result (λ o. IfSome o (λ flow. IsAcyclicFlow net.now (slice_index flow.items) SHARE_UNIT pair.src pair.dst)) }
{
    let costs = hops.costs.as_slice();
    if costs[pair.src as usize].is_none() {
        return Ok(None);
    }
    let flow = share_out(alloc, net, hops, pair.src)?;
    Ok(Some(flow))
}

/// The flow of one million units from the source of the pair to its destination that is split
/// equally over the next links of least-cost paths at each node, or `None` exactly where no path
/// leads there. Units that do not divide go to the links of lower number.
///
/// The flow has one number for each link. `Memory` comes where memory is wanting.
pub fn split(alloc: Global, net: &Network, pair: Pair) -> Result<Option<Vec<u64>>, Memory>
    requires network { IsTrue (is_well_formed net.now) }
    requires pair { IsPairOf net.now pair }
    ensures none { IfOk result (λ o. IfNone o (HasPath net.now pair.src pair.dst → ⊥)) }
    ensures reached { IfOk result (λ o. IfSome o (λ _. HasPath net.now pair.src pair.dst)) }
    ensures count { IfOk result (λ o. IfSome o (λ flow. length flow.items ≡ link_count net.now)) }
    ensures split { IfOk result (λ o. IfSome o (λ flow. IsEqualSplit net.now pair.src pair.dst (slice_index flow.items))) }
    ensures flow { IfOk result (λ o. IfSome o (λ flow. IsAcyclicFlow net.now (slice_index flow.items) SHARE_UNIT pair.src pair.dst)) }
{
    let mut searches = Searches::new(alloc, net, Direction::Backward)?;
    let hops = next_hops(alloc, net, &mut searches, pair.dst)?;
    split_by(alloc, net, &hops, pair)
}
