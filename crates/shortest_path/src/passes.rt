//! The distances of all nodes from one, by passes over the nodes in the order of the search before.
ghost use Rattle.std.specs.Prelude.{◌≡◌, ℕ, ◌+◌, ◌^◌, ◌<◌, ◌≤◌, All, IfOk, IfSome, MatchBool, false, true, length};
ghost use Rattle.te_model.specs.declared.limits.TheConstants.{FORMAT_2};
ghost use Rattle.te_model.specs.Network.{link_count, node_count};
ghost use Rattle.shortest_path.specs.Graph.{AreSettledDistances, NoFarther};
ghost use Rattle.shortest_path.specs.Links.{HasSoundLinks};
ghost use Rattle.shortest_path.specs.Passes.{IsPartSearch, IsRoom, NoneIsNearer};
ghost use Rattle.shortest_path.specs.Rows.{AreArcRows, graph_of};

use crate::node_order::Order;
use crate::settle::{Arcs, forget, is_above, relax, settle};
use std::alloc::Global;
use te_model::{Memory, Network};

/// The most passes of a search. An order that is so far from that of the distances costs more than none.
const MAX_PASSES: usize = 16;

/// What searches in one network write before they read it, so that they take no memory.
#[derive(Drop)]
pub struct Room {
    /// The distance of each node at its last scan, which is when the links that start there were looked at.
    pub scans: Vec<Option<u64>>,
    /// Which nodes a search without an order is done with.
    pub done: Vec<bool>,
}

/// Room for searches in a network of so many nodes.
pub fn room_for(alloc: Global, nodes: usize) -> Result<Room, Memory>
    ensures { IfOk result (IsRoom nodes) }
{
    let scans = vec![in alloc; None; nodes]?;
    let done = vec![in alloc; false; nodes]?;
    Ok(Room { scans, done })
}

/// Scans each node of the order that is nearer than at its last scan.
fn pass(
    net: &Network,
    arcs: &Arcs,
    lengths: &[u64],
    open: &[bool],
    order: &[u32],
    distances: &mut [Option<u64>],
    scans: &mut [Option<u64>],
)
    requires sound { HasSoundLinks net.now }
    requires rows { AreArcRows net.now arcs.now.direction (link_count net.now) arcs.now.rows.items }
    requires lengths { length lengths.now ≡ link_count net.now }
    requires marks { length «open».now ≡ link_count net.now }
    requires limit { All (λ l. l ≤ 2 ^ 28) lengths.now }
    requires order { All (λ v. v < node_count net.now) order.now }
    requires few { length order.now ≤ FORMAT_2.nodes }
    requires part { (start : ℕ) × IsPartSearch (graph_of net.now lengths.now «open».now arcs.now.direction arcs.now.rows.items) start (2 ^ 28) (2 ^ 20) distances.old scans.old }
    ensures { (start n : ℕ) → IsPartSearch (graph_of net.now lengths.now «open».now arcs.now.direction arcs.now.rows.items) start (2 ^ 28) n distances.old scans.old → IsPartSearch (graph_of net.now lengths.now «open».now arcs.now.direction arcs.now.rows.items) start (2 ^ 28) (n + FORMAT_2.nodes) distances.new scans.new }
{
    for node in order {
        let u = *node as usize;
        if let Some(reach) = distances[u] {
            if is_above(scans[u], reach) {
                scans[u] = Some(reach);
                let row = arcs.rows[u].as_slice();
                relax(net, arcs.direction, lengths, open, row, reach, distances);
            }
        }
    }
}

/// Whether a node at this distance is nearer than at its last scan.
fn is_nearer(distance: Option<u64>, scan: Option<u64>) -> bool
    ensures { MatchBool result (NoFarther scan distance → ⊥) (NoFarther scan distance) }
{
    match distance {
        Some(d) => is_above(scan, d),
        None => false,
    }
}

/// Whether no node is nearer than at its last scan.
fn is_settled(distances: &[Option<u64>], scans: &[Option<u64>]) -> bool
    requires { length scans.now ≡ length distances.now }
    ensures { result ≡ true → NoneIsNearer (length distances.now) distances.now scans.now }
{
    for v in 0..distances.len() {
        if is_nearer(distances[v], scans[v]) {
            return false;
        }
    }
    true
}

/// Writes the distances of all nodes from `start`, and says how many passes that took, or `None` where so many passes as `MAX_PASSES`
/// leave some distances too great.
fn settle_by_passes(
    net: &Network,
    arcs: &Arcs,
    lengths: &[u64],
    open: &[bool],
    start: u32,
    order: &[u32],
    distances: &mut [Option<u64>],
    scans: &mut [Option<u64>],
) -> Option<usize>
    requires sound { HasSoundLinks net.now }
    requires rows { AreArcRows net.now arcs.now.direction (link_count net.now) arcs.now.rows.items }
    requires lengths { length lengths.now ≡ link_count net.now }
    requires marks { length «open».now ≡ link_count net.now }
    requires limit { All (λ l. l ≤ 2 ^ 28) lengths.now }
    requires start { start < node_count net.now }
    requires order { All (λ v. v < node_count net.now) order.now }
    requires count { length order.now ≡ node_count net.now }
    requires nodes { length distances.old ≡ node_count net.now }
    requires scans { length scans.old ≡ node_count net.now }
    ensures { IfSome result (λ n. AreSettledDistances (graph_of net.now lengths.now «open».now arcs.now.direction arcs.now.rows.items) start distances.new) }
{
    forget(distances);
    forget(scans);
    distances[start as usize] = Some(0);
    for before in 0..MAX_PASSES {
        pass(net, arcs, lengths, open, order, distances, scans);
        if is_settled(distances, scans) {
            return Some(before + 1);
        }
    }
    None
}

/// Writes the distances of all nodes from `start` over the open links. The nearer the order is to that of the distances, the less
/// it takes, and it is nearer to it afterwards.
pub fn search(
    net: &Network,
    arcs: &Arcs,
    lengths: &[u64],
    open: &[bool],
    start: u32,
    order: &mut Order,
    distances: &mut [Option<u64>],
    room: &mut Room,
)
    requires sound { HasSoundLinks net.now }
    requires rows { AreArcRows net.now arcs.now.direction (link_count net.now) arcs.now.rows.items }
    requires lengths { length lengths.now ≡ link_count net.now }
    requires marks { length «open».now ≡ link_count net.now }
    requires limit { All (λ l. l ≤ 2 ^ 28) lengths.now }
    requires start { start < node_count net.now }
    requires order { order.old ≡ node_count net.now }
    requires nodes { length distances.old ≡ node_count net.now }
    requires room { IsRoom (node_count net.now) room.old }
    ensures distances { AreSettledDistances (graph_of net.now lengths.now «open».now arcs.now.direction arcs.now.rows.items) start distances.new }
    ensures order { order.new ≡ order.old }
    ensures room { IsRoom (node_count net.now) room.new }
{
    let nodes = order.as_slice();
    let scans = &mut room.scans;
    match settle_by_passes(net, arcs, lengths, open, start, nodes, distances, scans) {
        // In such an order each node stands behind the one before it on its way.
        Some(1) => {}
        Some(_) => order.sort(distances),
        None => {
            settle(net, arcs, lengths, open, start, distances, &mut room.done);
            order.sort(distances);
        }
    }
}
