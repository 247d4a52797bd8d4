//! The worst matrix for weights of a link, and what it puts on the links where each pair takes a least way.
ghost use Rattle.std.specs.Prelude.{◌≡◌, ◌<◌, IfOk, OnOk, IsTrue, length};
ghost use Rattle.te_model.specs.Network.{is_well_formed, link_count, node_count};
ghost use Rattle.centred_steps.specs.Loads.{AreLoadsWithin, AreSmall};
ghost use Rattle.centred_steps.specs.Ways.{AreLastLinks};
ghost use Rattle.worst_matrices.specs.Usage.{HasSmallBounds, IsLinkUsage, IsMetricOf};

use crate::quotient::{Quotient, dearest, demand_by, greatest_between};
use crate::usage::LinkUsage;
use best_blocks::Metric;
use centred_steps::{add_load_along, last_links, narrowest_on};
use std::alloc::Global;
use te_model::{DemandSet, Memory, Network};

/// What stands for a node that is not there.
const NO_NODE: u32 = u32::MAX;

/// What a pair sends over each unit of capacity where none is dearer.
const WHOLE: u128 = 1 << 10;

/// The worst matrix, and its loads.
#[derive(Drop)]
pub struct Response {
    /// One number for each pair.
    pub demand: Vec<u128>,
    /// One for each link.
    pub loads: Vec<u128>,
}

/// The least ways from one node after another, by the links with which they end.
#[derive(Drop)]
struct Ways {
    /// The node from which they lead, or `NO_NODE`.
    from: u32,
    /// For each node the last link of the way to it.
    lasts: Vec<Option<u32>>,
}

/// No ways from any node.
fn no_ways(alloc: Global, net: &Network) -> Result<Ways, Memory>
    ensures { IfOk result (λ w. AreLastLinks net.now w.lasts.items) }
{
    let lasts = vec![in alloc; None; net.names.as_slice().len()]?;
    Ok(Ways {
        from: NO_NODE,
        lasts,
    })
}

/// Writes the last links of the least ways by the distances, where there is one for each node.
fn write_lasts(net: &Network, weights: &[u64], distances: &[Option<u64>], lasts: &mut [Option<u32>])
    requires network { IsTrue (is_well_formed net.now) }
    requires weights { length weights.now ≡ link_count net.now }
    requires lasts { AreLastLinks net.now lasts.old }
    ensures { AreLastLinks net.now lasts.new }
{
    if distances.len() == lasts.len() {
        last_links(net, weights, distances, lasts);
    }
}

/// Writes the ways from the node, where the metric has a row of it.
fn write_ways_from(net: &Network, metric: &Metric, ways: &mut Ways, from: u32)
    requires network { IsTrue (is_well_formed net.now) }
    requires weights { length metric.now.weights ≡ link_count net.now }
    requires ways { AreLastLinks net.now ways.old.lasts.items }
    ensures { AreLastLinks net.now ways.new.lasts.items }
{
    let rows = metric.rows.as_slice();
    if ways.from != from && (from as usize) < rows.len() {
        let row = rows[from as usize].as_slice();
        write_lasts(net, metric.weights.as_slice(), row, &mut ways.lasts);
        ways.from = from;
    }
}

/// What a pair sends over each unit of capacity in the worst of all matrices: the less the less dear it is, and nothing where its
/// share is worth less than its price by one part in so many.
fn nearness(share: u64, distance: u64, top: Quotient, near: u128) -> u128 {
    let price = top.price(distance);
    let above = top.worth(share).saturating_mul(near);
    let over = above.saturating_sub(price.saturating_mul(near.saturating_sub(1)));
    over.saturating_mul(WHOLE) / price.max(1)
}

/// Writes what each pair sends over each unit of capacity in the worst of all matrices.
fn write_nearness(shares: &[u64], distances: &[u64], near: u128, demand: &mut [u128])
    requires distances { length distances.now ≡ length shares.now }
    requires demand { length demand.old ≡ length shares.now }
{
    let top = dearest(shares, distances);
    for p in 0..shares.len() {
        demand[p] = nearness(shares[p], distances[p], top, near);
    }
}

/// Writes the worst matrix between the bounds of the set.
fn write_between(set: &DemandSet, shares: &[u64], distances: &[u64], demand: &mut [u128])
    requires set { HasSmallBounds set.now }
    requires distances { length distances.now ≡ length shares.now }
    requires demand { length demand.old ≡ length shares.now }
{
    let top = greatest_between(set, shares, distances);
    for p in 0..shares.len() {
        demand[p] = u128::from(demand_by(set, p, shares[p], distances[p], top));
    }
}

/// Writes what each pair sends in the worst matrix: between bounds the demand, and else that over each unit of capacity.
fn write_demand(set: &DemandSet, shares: &[u64], distances: &[u64], near: u128, demand: &mut [u128])
    requires set { HasSmallBounds set.now }
    requires distances { length distances.now ≡ length shares.now }
    requires demand { length demand.old ≡ length shares.now }
{
    match set {
        DemandSet::All => write_nearness(shares, distances, near, demand),
        DemandSet::Margin { .. } => write_between(set, shares, distances, demand),
        DemandSet::Box { .. } => write_between(set, shares, distances, demand),
    }
}

/// What a pair sends over its way, whose least capacity this is.
fn amount_of(set: &DemandSet, sent: u128, capacity: u64) -> u128 {
    match set {
        DemandSet::All => sent.saturating_mul(u128::from(capacity)),
        DemandSet::Margin { .. } => sent,
        DemandSet::Box { .. } => sent,
    }
}

/// Puts what the pairs send on their least ways, and makes it demands.
fn put_on_ways(
    usage: &LinkUsage,
    metric: &Metric,
    ways: &mut Ways,
    demand: &mut [u128],
    loads: &mut [u128],
)
    requires usage { IsLinkUsage usage.now }
    requires metric { IsMetricOf usage.now metric.now }
    requires ways { AreLastLinks usage.now.net.now ways.old.lasts.items }
    requires demand { length demand.old ≡ length usage.now.shares.now }
    requires loads { AreLoadsWithin usage.now.net.now loads.old }
    ensures { AreSmall loads.new }
{
    let routes = usage.routing.routes.as_slice();
    for p in 0..routes.len() {
        if demand[p] > 0 {
            let pair = routes[p].pair;
            write_ways_from(usage.net, metric, ways, pair.src);
            let capacity = narrowest_on(usage.net, &ways.lasts, pair.dst);
            let amount = amount_of(usage.set, demand[p], capacity);
            demand[p] = amount;
            add_load_along(usage.net, &ways.lasts, pair.dst, amount, loads);
        }
    }
}

/// The worst matrix for the weights of the metric. Where every matrix is looked at, the pairs send that are the dearest up to one part
/// in `near`.
pub fn respond(
    alloc: Global,
    usage: &LinkUsage,
    metric: &Metric,
    near: u128,
) -> Result<Response, Memory>
    requires usage { IsLinkUsage usage.now }
    requires metric { IsMetricOf usage.now metric.now }
    ensures loads { IfOk result (λ r. AreLoadsWithin usage.now.net.now r.loads.items) }
    ensures demand { IfOk result (λ r. length r.demand.items ≡ length usage.now.shares.now) }
{
    let mut demand = vec![in alloc; 0; usage.shares.len()]?;
    let mut loads = vec![in alloc; 0; usage.net.links.as_slice().len()]?;
    let mut ways = no_ways(alloc, usage.net)?;
    let distances = metric.distances.as_slice();
    write_demand(usage.set, usage.shares, distances, near, &mut demand);
    put_on_ways(usage, metric, &mut ways, &mut demand, &mut loads);
    Ok(Response { demand, loads })
}
