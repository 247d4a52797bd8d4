//! The distances of all nodes from one, nearest nodes first, which needs no order of them.
ghost use Rattle.std.specs.Prelude.{◌⊎◌, All, EachIndex, ◌≡◌, ℕ, ◌+◌, ◌*◌, ◌^◌, ◌<◌, ◌≤◌, length, slice_index_or, true, false, Some, None, MatchBool};
ghost use Rattle.std.specs.Option.{MatchOption};
ghost use Rattle.te_model.specs.Network.{link_count, node_count};
ghost use Rattle.shortest_path.specs.Graph.{IsNearestBelow, AreSettledDistances, IsRelaxed, AtMost, distance_at};
ghost use Rattle.shortest_path.specs.Links.{HasSoundLinks};
ghost use Rattle.shortest_path.specs.Rows.{AreArcRows, arcs_of, graph_of};

use crate::row::Row;
use crate::rows::{Direction, ends};
use te_model::Network;

/// The nearer of two nodes with distances, the first where they are equally near.
fn nearer(best: Option<(usize, u64)>, v: usize, d: u64) -> Option<(usize, u64)>
    ensures { MatchOption best (result ≡ Some (v, d)) (λ r. ((d < r.1) × (result ≡ Some (v, d))) ⊎ ((r.1 ≤ d) × (result ≡ best))) }
{
    match best {
        None => Some((v, d)),
        Some((_, least)) => { if d < least { Some((v, d)) } else { best } }
    }
}

/// The node of least known distance among those that are not done, and this distance.
fn nearest(distances: &[Option<u64>], done: &[bool]) -> Option<(usize, u64)>
    requires { length distances.now ≡ length done.now }
    ensures { IsNearestBelow distances.now done.now (length done.now) result }
{
    let mut best: Option<(usize, u64)> = None;
    for v in 0..distances.len() {
        if !done[v] {
            if let Some(d) = distances[v] {
                best = nearer(best, v, d);
            }
        }
    }
    best
}

/// Whether the distance is unknown or above `reach`.
pub fn is_above(distance: Option<u64>, reach: u64) -> bool
    ensures { MatchBool result (AtMost distance reach → ⊥) (AtMost distance reach) }
{
    match distance {
        None => true,
        Some(d) => reach < d,
    }
}

/// What a search looks at: the links by the nodes where they start, and what direction that is in.
#[derive(Drop)]
pub struct Arcs {
    pub direction: Direction,
    pub rows: Vec<Row>,
}

/// Lowers the distances of the open links' ends to those over a node at the distance `from`.
pub fn relax(
    net: &Network,
    direction: Direction,
    lengths: &[u64],
    open: &[bool],
    row: &[u32],
    from: u64,
    distances: &mut [Option<u64>],
)
    requires sound { HasSoundLinks net.now }
    requires links { All (λ h. h < link_count net.now) row.now }
    requires lengths { length lengths.now ≡ link_count net.now }
    requires marks { length «open».now ≡ link_count net.now }
    requires limit { All (λ l. l ≤ 2 ^ 28) lengths.now }
    requires near { from ≤ 2 ^ 50 }
    requires nodes { length distances.old ≡ node_count net.now }
    ensures { IsRelaxed (arcs_of net.now lengths.now «open».now direction row.now) from distances.old distances.new }
{
    let links = net.links.as_slice();
    for link in row {
        let h = *link as usize;
        if open[h] {
            let (_, to) = ends(direction, links[h]);
            let reach = from + lengths[h];
            if is_above(distances[to as usize], reach) {
                distances[to as usize] = Some(reach);
            }
        }
    }
}

/// Makes every distance unknown.
pub fn forget(distances: &mut [Option<u64>])
    ensures { EachIndex distances.new (λ v. distance_at distances.new v ≡ None) }
{
    for distance in distances.iter_mut() {
        *distance = None;
    }
}

/// Takes every mark away.
fn clear(done: &mut [bool])
    ensures { EachIndex done.new (λ v. slice_index_or done.new v true ≡ false) }
{
    for mark in done.iter_mut() {
        *mark = false;
    }
}

/// Writes the distances of all nodes from `start` over the open links. `done` is room for a mark of each node.
pub fn settle(
    net: &Network,
    arcs: &Arcs,
    lengths: &[u64],
    open: &[bool],
    start: u32,
    distances: &mut [Option<u64>],
    done: &mut [bool],
)
    requires sound { HasSoundLinks net.now }
    requires rows { AreArcRows net.now arcs.now.direction (link_count net.now) arcs.now.rows.items }
    requires lengths { length lengths.now ≡ link_count net.now }
    requires marks { length «open».now ≡ link_count net.now }
    requires limit { All (λ l. l ≤ 2 ^ 28) lengths.now }
    requires start { start < node_count net.now }
    requires nodes { length distances.old ≡ node_count net.now }
    requires room { length done.old ≡ node_count net.now }
    ensures { AreSettledDistances (graph_of net.now lengths.now «open».now arcs.now.direction arcs.now.rows.items) start distances.new }
{
    forget(distances);
    clear(done);
    distances[start as usize] = Some(0);
    while let Some((node, reach)) = nearest(distances, done) {
        done[node] = true;
        let row = arcs.rows[node].as_slice();
        relax(net, arcs.direction, lengths, open, row, reach, distances);
    }
}
