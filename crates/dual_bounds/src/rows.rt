//! Rows of distances from the sources of pairs.
ghost use Rattle.std.specs.Prelude.{◌≡◌, ◌^◌, ◌<◌, ◌≤◌, All, IfOk, IsTrue, length};
ghost use Rattle.te_model.specs.Network.{is_well_formed, link_count, node_count};
ghost use Rattle.shortest_path.specs.declared.rows.Direction.TheVariants.{Forward};
ghost use Rattle.shortest_path.specs.Pairs.{AreValues};
ghost use Rattle.shortest_path.specs.Paths.{ArePotentials};
ghost use Rattle.shortest_path.specs.Rows.{IsSearchGraph};
ghost use Rattle.dual_bounds.specs.Rows.{sends_from, sources_of, potential_in, distance_by, AreSourceRows};

use shortest_path::{Direction, Searches, potentials_by};
use std::alloc::Global;
use te_model::{Items, Memory, Network, PairRoutes, Row, number_at};

/// Whether some pair sends from the node.
fn sends_from(routes: &[PairRoutes], node: u32) -> bool
    ensures { result ≡ sends_from routes.now node }
{
    routes.iter().any(|route| route.pair.src == node)
}

/// The nodes from which some pair sends, ascending.
pub fn sources_of(alloc: Global, net: &Network, routes: &[PairRoutes]) -> Result<Vec<u32>, Memory>
    requires { IsTrue (is_well_formed net.now) }
    ensures { IfOk result (λ s. s.items ≡ sources_of net.now routes.now) }
{
    let mut sources = Vec::new(alloc);
    for node in 0..net.names.as_slice().len() {
        if sends_from(routes, node as u32) {
            sources.push(node as u32)?;
        }
    }
    Ok(sources)
}

/// The potentials from the node. The searches are along links in the network.
fn potentials_from(
    alloc: Global,
    net: &Network,
    searches: &mut Searches,
    lengths: &[u64],
    node: u32,
) -> Result<Vec<u64>, Memory>
    requires network { IsTrue (is_well_formed net.now) }
    requires along { IsSearchGraph net.now Forward searches.old }
    requires lengths { length lengths.now ≡ link_count net.now }
    requires limit { All (λ l. l ≤ 2 ^ 28) lengths.now }
    requires node { node < node_count net.now }
    ensures potentials { IfOk result (λ p. ArePotentials net.now lengths.now node p.items) }
    ensures same { searches.new ≡ searches.old }
{
    let mut distances = vec![in alloc; None; net.names.as_slice().len()]?;
    searches.distances(net, lengths, node, &mut distances);
    let potentials = potentials_by(alloc, &distances)?;
    Ok(potentials)
}

/// A row for each of the nodes, with its potentials under the lengths.
pub fn rows_of(
    alloc: Global,
    net: &Network,
    lengths: &[u64],
    nodes: &[u32],
) -> Result<Vec<Row>, Memory>
    requires network { IsTrue (is_well_formed net.now) }
    requires lengths { length lengths.now ≡ link_count net.now }
    requires limit { All (λ l. l ≤ 2 ^ 28) lengths.now }
    requires nodes { All (λ i. i < node_count net.now) nodes.now }
    ensures { IfOk result (λ r. AreSourceRows net.now lengths.now nodes.now r.items) }
{
    let mut searches = Searches::new(alloc, net, Direction::Forward)?;
    let mut rows = Vec::with_capacity(alloc, nodes.len())?;
    for node in nodes {
        let potential = potentials_from(alloc, net, &mut searches, lengths, *node)?;
        rows.push(Row {
            source: *node,
            potential: Items::new(potential),
        })?;
    }
    Ok(rows)
}

/// What the row of the source says of the node.
fn entry_of(rows: &[Row], source: u32, node: u32) -> u64
    ensures { result ≡ potential_in rows.now source node }
{
    match rows.iter().find(|row| row.source == source) {
        Some(row) => number_at(row.potential.as_slice(), node as usize),
        None => 0,
    }
}

/// What the row of its source says of the destination of each pair.
pub fn distances_by(alloc: Global, rows: &[Row], routes: &[PairRoutes]) -> Result<Vec<u64>, Memory>
    ensures { IfOk result (λ d. AreValues (length routes.now) (distance_by rows.now routes.now) d.items) }
{
    let mut distances = Vec::with_capacity(alloc, routes.len())?;
    for p in 0..routes.len() {
        let pair = routes[p].pair;
        distances.push(entry_of(rows, pair.src, pair.dst))?;
    }
    Ok(distances)
}
