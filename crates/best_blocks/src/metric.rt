//! Weights of the links, and the distances that they make.
ghost use Rattle.std.specs.Prelude.{◌≡◌, ◌^◌, ◌<◌, ◌≤◌, All, IfOk, IfSome, IsTrue, length, unwrap_or};
ghost use Rattle.te_model.specs.Network.{is_well_formed, link_count, node_count};
ghost use Rattle.shortest_path.specs.declared.rows.Direction.TheVariants.{Forward};
ghost use Rattle.shortest_path.specs.Graph.{distance_at};
ghost use Rattle.shortest_path.specs.Pairs.{AreValues};
ghost use Rattle.shortest_path.specs.Rows.{IsSearchGraph};
ghost use Rattle.best_blocks.specs.Metric.{distance_in, IsMetric};
ghost use Rattle.best_blocks.specs.Rows.{distances_from, IsSameElsewhere};

use crate::rows::{distance_at, rows_after, rows_under, rows_with};
use routing::Routing;
use shortest_path::Searches;
use std::alloc::Global;
use te_model::{Items, Memory, Network};

/// Weights of the links of a network, and the distances that they make.
#[derive(Drop)]
pub struct Metric {
    /// One weight for each link.
    pub weights: Items<u64>,
    /// For each node that needs a row the distances from it, one for each node; else nothing.
    pub rows: Items<Items<Option<u64>>>,
    /// The distance from the source to the destination of each pair whose source has a row.
    pub distances: Items<u64>,
}

/// What the rows say of the distance between the nodes.
fn distance_between(rows: &[Items<Option<u64>>], from: u32, to: u32) -> u64
    ensures { result ≡ unwrap_or (distance_at (distances_from rows.now from) to) 0 }
{
    if (from as usize) < rows.len() {
        distance_at(rows[from as usize].as_slice(), to).unwrap_or(0)
    } else {
        0
    }
}

/// What the rows say of the distance of each pair.
fn distances_in(
    alloc: Global,
    routing: &Routing,
    rows: &[Items<Option<u64>>],
) -> Result<Vec<u64>, Memory>
    ensures { IfOk result (λ d. AreValues (length routing.now.routes) (distance_in rows.now routing.now.routes) d.items) }
{
    let routes = routing.routes.as_slice();
    let mut distances = vec![in alloc; 0; routes.len()]?;
    for p in 0..routes.len() {
        let pair = routes[p].pair;
        distances[p] = distance_between(rows, pair.src, pair.dst);
    }
    Ok(distances)
}

/// The weights and the rows, with what the rows say of the distance of each pair.
fn with_distances(
    alloc: Global,
    routing: &Routing,
    weights: Vec<u64>,
    rows: Vec<Items<Option<u64>>>,
) -> Result<Metric, Memory>
    ensures weights { IfOk result (λ m. m.weights ≡ weights.items) }
    ensures rows { IfOk result (λ m. m.rows ≡ rows.items) }
    ensures distances { IfOk result (λ m. AreValues (length routing.now.routes) (distance_in rows.items routing.now.routes) m.distances) }
{
    let distances = distances_in(alloc, routing, &rows)?;
    Ok(Metric {
        weights: Items::new(weights),
        rows: Items::new(rows),
        distances: Items::new(distances),
    })
}

/// The metric of the weights, of which there is one for each link, with a row for each marked node.
pub fn metric_of(
    alloc: Global,
    net: &Network,
    routing: &Routing,
    marks: &[bool],
    weights: Vec<u64>,
) -> Result<Metric, Memory>
    requires network { IsTrue (is_well_formed net.now) }
    requires weights { length weights.items ≡ link_count net.now }
    requires small { All (λ w. w ≤ 2 ^ 28) weights.items }
    requires marks { length marks.now ≡ node_count net.now }
    ensures metric { IfOk result (λ m. IsMetric net.now routing.now.routes marks.now m) }
    ensures weights { IfOk result (λ m. m.weights ≡ weights.items) }
{
    let rows = rows_under(alloc, net, &weights, marks)?;
    let metric = with_distances(alloc, routing, weights, rows)?;
    Ok(metric)
}

/// What `metric_of` gives, for many weights one after the other. The searches are along links in the network.
pub fn metric_with(
    alloc: Global,
    net: &Network,
    routing: &Routing,
    marks: &[bool],
    searches: &mut Searches,
    weights: Vec<u64>,
) -> Result<Metric, Memory>
    requires network { IsTrue (is_well_formed net.now) }
    requires along { IsSearchGraph net.now Forward searches.old }
    requires weights { length weights.items ≡ link_count net.now }
    requires small { All (λ w. w ≤ 2 ^ 28) weights.items }
    requires marks { length marks.now ≡ node_count net.now }
    ensures metric { IfOk result (λ m. IsMetric net.now routing.now.routes marks.now m) }
    ensures weights { IfOk result (λ m. m.weights ≡ weights.items) }
    ensures same { searches.new ≡ searches.old }
{
    let rows = rows_with(alloc, net, searches, &weights, marks)?;
    let metric = with_distances(alloc, routing, weights, rows)?;
    Ok(metric)
}

/// The metric of the new weights, which differ from those of the metric on the changed links alone. The searches are along links in
/// the network; where there are none yet and a row has to be searched, they are made, with one order for all nodes.
pub fn metric_after(
    alloc: Global,
    net: &Network,
    routing: &Routing,
    marks: &[bool],
    searches: &mut Option<Searches>,
    metric: &Metric,
    changed: &[u32],
    weights: Vec<u64>,
) -> Result<Metric, Memory>
    requires network { IsTrue (is_well_formed net.now) }
    requires weights { length weights.items ≡ link_count net.now }
    requires small { All (λ w. w ≤ 2 ^ 28) weights.items }
    requires marks { length marks.now ≡ node_count net.now }
    requires metric { IsMetric net.now routing.now.routes marks.now metric.now }
    requires changed { All (λ h. h < link_count net.now) changed.now }
    requires others { IsSameElsewhere (link_count net.now) changed.now metric.now.weights weights.items }
    requires along { IfSome searches.old (IsSearchGraph net.now Forward) }
    ensures metric { IfOk result (λ m. IsMetric net.now routing.now.routes marks.now m) }
    ensures weights { IfOk result (λ m. m.weights ≡ weights.items) }
    ensures along { IfSome searches.new (IsSearchGraph net.now Forward) }
{
    let old = metric.weights.as_slice();
    let rows = rows_after(
        alloc,
        net,
        searches,
        metric.rows.as_slice(),
        marks,
        changed,
        old,
        &weights,
    )?;
    let metric = with_distances(alloc, routing, weights, rows)?;
    Ok(metric)
}
