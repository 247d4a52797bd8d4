//! Distances from the nodes that need a row.
ghost use Rattle.std.specs.Prelude.{◌≡◌, ◌^◌, ◌<◌, ◌≤◌, [], All, None, IfOk, IfSome, IsTrue, true, false, length};
ghost use Rattle.te_model.specs.Network.{is_well_formed, link_count, node_count};
ghost use Rattle.shortest_path.specs.declared.rows.Direction.TheVariants.{Forward};
ghost use Rattle.shortest_path.specs.Graph.{distance_at};
ghost use Rattle.shortest_path.specs.Paths.{AreDistances};
ghost use Rattle.shortest_path.specs.Rows.{IsSearchGraph};
ghost use Rattle.best_blocks.specs.Rows.{is_loose, is_marked, is_slack_for, distances_from, AreNewWeights, AreRowsFrom};

use shortest_path::{Direction, Searches};
use std::alloc::Global;
use te_model::{Items, Memory, Network};

/// What the row says of the node.
pub fn distance_at(row: &[Option<u64>], node: u32) -> Option<u64>
    ensures { result ≡ distance_at row.now node }
{
    if (node as usize) < row.len() {
        row[node as usize]
    } else {
        None
    }
}

/// The mark of a node, and none past the end.
fn is_marked(marks: &[bool], node: usize) -> bool
    ensures { result ≡ is_marked marks.now node }
{
    if node < marks.len() {
        marks[node]
    } else {
        false
    }
}

/// The distances from the node. The searches are along links in the network.
fn row_from(
    alloc: Global,
    net: &Network,
    searches: &mut Searches,
    weights: &[u64],
    node: usize,
) -> Result<Vec<Option<u64>>, Memory>
    requires network { IsTrue (is_well_formed net.now) }
    requires along { IsSearchGraph net.now Forward searches.old }
    requires weights { length weights.now ≡ link_count net.now }
    requires small { All (λ w. w ≤ 2 ^ 28) weights.now }
    requires node { node < node_count net.now }
    ensures distances { IfOk result (λ r. AreDistances net.now weights.now node r.items) }
    ensures same { searches.new ≡ searches.old }
{
    let mut row = vec![in alloc; None; net.names.as_slice().len()]?;
    searches.distances(net, weights, node as u32, &mut row);
    Ok(row)
}

/// The distances from the node if it is marked, and else nothing. The searches are along links in
/// the network.
fn row_if_marked(
    alloc: Global,
    net: &Network,
    searches: &mut Searches,
    weights: &[u64],
    marks: &[bool],
    node: usize,
) -> Result<Vec<Option<u64>>, Memory>
    requires network { IsTrue (is_well_formed net.now) }
    requires along { IsSearchGraph net.now Forward searches.old }
    requires weights { length weights.now ≡ link_count net.now }
    requires small { All (λ w. w ≤ 2 ^ 28) weights.now }
    requires node { node < node_count net.now }
    ensures marked { IfOk result (λ r. is_marked marks.now node ≡ true → AreDistances net.now weights.now node r.items) }
    ensures other { IfOk result (λ r. is_marked marks.now node ≡ false → r.items ≡ []) }
    ensures same { searches.new ≡ searches.old }
{
    if is_marked(marks, node) {
        row_from(alloc, net, searches, weights, node)
    } else {
        Ok(Vec::new(alloc))
    }
}

/// The distances from the marked nodes. The searches are along links in the network.
pub fn rows_with(
    alloc: Global,
    net: &Network,
    searches: &mut Searches,
    weights: &[u64],
    marks: &[bool],
) -> Result<Vec<Items<Option<u64>>>, Memory>
    requires network { IsTrue (is_well_formed net.now) }
    requires along { IsSearchGraph net.now Forward searches.old }
    requires weights { length weights.now ≡ link_count net.now }
    requires small { All (λ w. w ≤ 2 ^ 28) weights.now }
    requires marks { length marks.now ≡ node_count net.now }
    ensures rows { IfOk result (λ r. AreRowsFrom (node_count net.now) net.now weights.now marks.now r.items) }
    ensures same { searches.new ≡ searches.old }
{
    let mut rows = Vec::with_capacity(alloc, marks.len())?;
    for i in 0..marks.len() {
        let row = row_if_marked(alloc, net, searches, weights, marks, i)?;
        rows.push(Items::new(row))?;
    }
    Ok(rows)
}

/// The distances from the marked nodes.
pub fn rows_under(
    alloc: Global,
    net: &Network,
    weights: &[u64],
    marks: &[bool],
) -> Result<Vec<Items<Option<u64>>>, Memory>
    requires network { IsTrue (is_well_formed net.now) }
    requires weights { length weights.now ≡ link_count net.now }
    requires small { All (λ w. w ≤ 2 ^ 28) weights.now }
    requires marks { length marks.now ≡ node_count net.now }
    ensures { IfOk result (λ r. AreRowsFrom (node_count net.now) net.now weights.now marks.now r.items) }
{
    let mut searches = Searches::new(alloc, net, Direction::Forward)?;
    let rows = rows_with(alloc, net, &mut searches, weights, marks)?;
    Ok(rows)
}

/// Whether a link between nodes at these distances is neither tight by its old weight nor a short
/// cut by its new one.
fn is_loose(from: Option<u64>, to: Option<u64>, old: u64, new: u64) -> bool
    ensures { result ≡ is_loose from to old new }
{
    match (from, to) {
        (Some(x), Some(y)) => {
            y as u128 != x as u128 + old as u128 && y as u128 <= x as u128 + new as u128
        }
        _ => true,
    }
}

/// Whether the link is slack for the row: neither tight by its old weight nor a short cut by its new one.
fn is_slack(net: &Network, row: &[Option<u64>], link: u32, old: &[u64], new: &[u64]) -> bool
    requires link { link < link_count net.now }
    requires old { length old.now ≡ link_count net.now }
    requires new { length new.now ≡ link_count net.now }
    ensures { result ≡ is_slack_for net.now row.now old.now new.now link }
{
    let ends = net.links.as_slice()[link as usize];
    let from = distance_at(row, ends.tail);
    let to = distance_at(row, ends.head);
    is_loose(from, to, old[link as usize], new[link as usize])
}

/// Whether each of the links is slack, so that the row stays.
fn are_slack(net: &Network, row: &[Option<u64>], links: &[u32], old: &[u64], new: &[u64]) -> bool
    requires links { All (λ h. h < link_count net.now) links.now }
    requires old { length old.now ≡ link_count net.now }
    requires new { length new.now ≡ link_count net.now }
    ensures { result ≡ true → All (λ h. is_slack_for net.now row.now old.now new.now h ≡ true) links.now }
{
    for link in links {
        if !is_slack(net, row, *link, old, new) {
            return false;
        }
    }
    true
}

/// The searches, which are made where there are none yet.
fn taken_or_made(
    alloc: Global,
    net: &Network,
    searches: &mut Option<Searches>,
) -> Result<Searches, Memory>
    requires network { IsTrue (is_well_formed net.now) }
    requires along { IfSome searches.old (IsSearchGraph net.now Forward) }
    ensures along { IfOk result (IsSearchGraph net.now Forward) }
    ensures taken { searches.new ≡ None }
{
    match searches.take() {
        Some(made) => Ok(made),
        None => Searches::new(alloc, net, Direction::Forward),
    }
}

/// The distances from the node by the new weights, which differ from the old ones on the changed
/// links alone. The searches, if there are some yet, are along links in the network.
fn next_row(
    alloc: Global,
    net: &Network,
    searches: &mut Option<Searches>,
    rows: &[Items<Option<u64>>],
    node: usize,
    changed: &[u32],
    old: &[u64],
    new: &[u64],
) -> Result<Vec<Option<u64>>, Memory>
    requires network { IsTrue (is_well_formed net.now) }
    requires node { node < node_count net.now }
    requires inside { node < length rows.now }
    requires row { AreDistances net.now old.now node (distances_from rows.now node) }
    requires weights { AreNewWeights net.now changed.now old.now new.now }
    requires along { IfSome searches.old (IsSearchGraph net.now Forward) }
    ensures distances { IfOk result (λ r. AreDistances net.now new.now node r.items) }
    ensures along { IfSome searches.new (IsSearchGraph net.now Forward) }
{
    let row = rows[node].as_slice();
    if are_slack(net, row, changed, old, new) {
        let kept = Vec::from_slice(alloc, row)?;
        return Ok(kept);
    }
    let mut made = taken_or_made(alloc, net, searches)?;
    let found = row_from(alloc, net, &mut made, new, node)?;
    *searches = Some(made);
    Ok(found)
}

/// The same if the node is marked, and else nothing.
fn next_row_if_marked(
    alloc: Global,
    net: &Network,
    searches: &mut Option<Searches>,
    rows: &[Items<Option<u64>>],
    marks: &[bool],
    node: usize,
    changed: &[u32],
    old: &[u64],
    new: &[u64],
) -> Result<Vec<Option<u64>>, Memory>
    requires network { IsTrue (is_well_formed net.now) }
    requires node { node < node_count net.now }
    requires rows { AreRowsFrom (node_count net.now) net.now old.now marks.now rows.now }
    requires weights { AreNewWeights net.now changed.now old.now new.now }
    requires along { IfSome searches.old (IsSearchGraph net.now Forward) }
    ensures marked { IfOk result (λ r. is_marked marks.now node ≡ true → AreDistances net.now new.now node r.items) }
    ensures other { IfOk result (λ r. is_marked marks.now node ≡ false → r.items ≡ []) }
    ensures along { IfSome searches.new (IsSearchGraph net.now Forward) }
{
    if is_marked(marks, node) {
        let next = next_row(alloc, net, searches, rows, node, changed, old, new)?;
        Ok(next)
    } else {
        Ok(Vec::new(alloc))
    }
}

/// The distances from the marked nodes by the new weights, which differ from the old ones on the
/// changed links alone. A row stays where these are slack for it. The searches, if there are some yet,
/// are along links in the network.
pub fn rows_after(
    alloc: Global,
    net: &Network,
    searches: &mut Option<Searches>,
    rows: &[Items<Option<u64>>],
    marks: &[bool],
    changed: &[u32],
    old: &[u64],
    new: &[u64],
) -> Result<Vec<Items<Option<u64>>>, Memory>
    requires network { IsTrue (is_well_formed net.now) }
    requires marks { length marks.now ≡ node_count net.now }
    requires rows { AreRowsFrom (node_count net.now) net.now old.now marks.now rows.now }
    requires weights { AreNewWeights net.now changed.now old.now new.now }
    requires along { IfSome searches.old (IsSearchGraph net.now Forward) }
    ensures rows { IfOk result (λ r. AreRowsFrom (node_count net.now) net.now new.now marks.now r.items) }
    ensures along { IfSome searches.new (IsSearchGraph net.now Forward) }
{
    let mut next = Vec::with_capacity(alloc, marks.len())?;
    for i in 0..marks.len() {
        let row = next_row_if_marked(alloc, net, searches, rows, marks, i, changed, old, new)?;
        next.push(Items::new(row))?;
    }
    Ok(next)
}
