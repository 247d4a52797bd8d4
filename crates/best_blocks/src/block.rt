//! Best blocks.
ghost use Rattle.std.specs.Prelude.{◌≡◌, ◌^◌, ◌<◌, ◌≤◌, ℕ, IfOk, IfSome, IfNone, All, IsTrue, false, length, slice_index};
ghost use Rattle.te_model.specs.Network.{is_well_formed, link_count, node_count};
ghost use Rattle.te_model.specs.declared.certificate.Block.{Block};
ghost use Rattle.te_model.specs.declared.units.TheConstants.{SHARE_UNIT};
ghost use Rattle.best_blocks.specs.Best.{AreBalanced, IsBalance, IsBestBlock, IsBestScale};
ghost use Rattle.best_blocks.specs.Conditions.{IsRoutingWithin, IsSetWithin};
ghost use Rattle.best_blocks.specs.Metric.{IsMetric};
ghost use Rattle.best_blocks.specs.Scale.{AreScalable, HasNoScale};
ghost use Rattle.best_blocks.specs.Sharing.{HasShare, IsSharedLink};

use crate::balance::weighed_share;
use crate::metric::{Metric, metric_of};
use crate::potentials::rows_of;
use crate::scaling::{Scale, scale_under};
use crate::sharing::{SharedLink, link_with_shares};
use routing::Routing;
use std::alloc::Global;
use te_model::{Block, DemandSet, Items, Memory, Network};

/// What is added to the distances, and what is taken back.
#[derive(Drop)]
struct Balance {
    plus: Items<u64>,
    minus: Items<u64>,
}

/// What is added and taken back between bounds: by how much each share asks for more than the
/// distance of its pair, and for less.
fn balance_between(
    alloc: Global,
    shares: &[u64],
    distances: &[u64],
    b: u64,
) -> Result<Balance, Memory>
    requires count { length distances.now ≡ length shares.now }
    requires shares { (p : ℕ) → slice_index shares.now p ≤ SHARE_UNIT }
    requires b { b ≤ 2 ^ 36 }
    ensures { IfOk result (λ r. AreBalanced (length shares.now) (slice_index shares.now) (slice_index distances.now) b r.plus r.minus) }
{
    let mut plus = Vec::with_capacity(alloc, shares.len())?;
    let mut minus = Vec::with_capacity(alloc, shares.len())?;
    for p in 0..shares.len() {
        let weighed = weighed_share(shares[p], b);
        plus.push(weighed.saturating_sub(distances[p]))?;
        minus.push(distances[p].saturating_sub(weighed))?;
    }
    Ok(Balance {
        plus: Items::new(plus),
        minus: Items::new(minus),
    })
}

/// What is added and taken back where the weights are scaled by `b`: nothing for every matrix.
fn balance_of(
    alloc: Global,
    set: &DemandSet,
    shares: &[u64],
    distances: &[u64],
    b: u64,
) -> Result<Balance, Memory>
    requires numbers { AreScalable set.now shares.now distances.now }
    requires b { b ≤ 2 ^ 36 }
    ensures { IfOk result (λ r. IsBalance set.now (length shares.now) (slice_index shares.now) (slice_index distances.now) b r.plus r.minus) }
{
    match set {
        DemandSet::All => Ok(Balance {
            plus: Items::new(Vec::new(alloc)),
            minus: Items::new(Vec::new(alloc)),
        }),
        DemandSet::Margin { .. } => balance_between(alloc, shares, distances, b),
        DemandSet::Box { .. } => balance_between(alloc, shares, distances, b),
    }
}

/// The block of the weights of the metric, scaled so.
fn block_of(
    alloc: Global,
    net: &Network,
    routing: &Routing,
    set: &DemandSet,
    shared: &SharedLink,
    metric: &Metric,
    scale: Scale,
) -> Result<Block, Memory>
    requires network { IsTrue (is_well_formed net.now) }
    requires routing { IsRoutingWithin net.now routing.now.routes }
    requires set { IsSetWithin (length routing.now.routes) set.now }
    requires shared { IsSharedLink net.now routing.now.routes set.now shared.now }
    requires metric { IsMetric net.now routing.now.routes shared.now.marks metric.now }
    requires scale { IsBestScale set.now (length routing.now.routes) (slice_index shared.now.shares) (slice_index metric.now.distances) scale.a scale.b }
    ensures { IfOk result (IsBestBlock net.now routing.now.routes set.now shared.now.link metric.now.weights) }
{
    let shares = shared.shares.as_slice();
    let distances = metric.distances.as_slice();
    let balance = balance_of(alloc, set, shares, distances, scale.b)?;
    let weights = metric.weights.as_slice();
    let rows = rows_of(
        alloc,
        net,
        weights,
        metric.rows.as_slice(),
        shared.marks.as_slice(),
    )?;
    let copied = Vec::from_slice(alloc, weights)?;
    Ok(Block {
        link: shared.link,
        a: scale.a,
        b: scale.b,
        weights: Items::new(copied),
        rows: Items::new(rows),
        plus: balance.plus,
        minus: balance.minus,
    })
}

/// The best block of the link for the weights of the metric, or `None` where there is none.
pub fn best_block(
    alloc: Global,
    net: &Network,
    routing: &Routing,
    set: &DemandSet,
    shared: &SharedLink,
    metric: &Metric,
) -> Result<Option<Block>, Memory>
    requires network { IsTrue (is_well_formed net.now) }
    requires routing { IsRoutingWithin net.now routing.now.routes }
    requires set { IsSetWithin (length routing.now.routes) set.now }
    requires shared { IsSharedLink net.now routing.now.routes set.now shared.now }
    requires metric { IsMetric net.now routing.now.routes shared.now.marks metric.now }
    ensures best { IfOk result (λ o. IfSome o (IsBestBlock net.now routing.now.routes set.now shared.now.link metric.now.weights)) }
    ensures none { IfOk result (λ o. IfNone o (HasNoScale set.now (length routing.now.routes) (slice_index shared.now.shares) (slice_index metric.now.distances))) }
{
    match scale_under(net, routing, set, shared, metric) {
        Some(scale) => {
            let block = block_of(alloc, net, routing, set, shared, metric, scale)?;
            Ok(Some(block))
        }
        None => Ok(None),
    }
}

/// The metric of a copy of the weights, with the rows that the link needs.
fn metric_by(
    alloc: Global,
    net: &Network,
    routing: &Routing,
    shared: &SharedLink,
    weights: &[u64],
) -> Result<Metric, Memory>
    requires network { IsTrue (is_well_formed net.now) }
    requires marks { length shared.now.marks ≡ node_count net.now }
    requires weights { length weights.now ≡ link_count net.now }
    requires small { All (λ w. w ≤ 2 ^ 28) weights.now }
    ensures metric { IfOk result (IsMetric net.now routing.now.routes shared.now.marks) }
    ensures weights { IfOk result (λ m. m.weights ≡ weights.now) }
{
    let copied = Vec::from_slice(alloc, weights)?;
    metric_of(alloc, net, routing, shared.marks.as_slice(), copied)
}

/// The best block of a link on which some share is above 0, for the weights, or `None` exactly
/// where there is none: the block whose `a / b`, by which the weights are scaled, is least
/// (after Applegate and Cohen, 2003).
///
/// `weights` has one weight of at most 2^28 for each link. `Memory` comes where memory is wanting.
pub fn scale(
    alloc: Global,
    net: &Network,
    routing: &Routing,
    set: &DemandSet,
    link: u32,
    weights: &[u64],
) -> Result<Option<Block>, Memory>
    requires network { IsTrue (is_well_formed net.now) }
    requires routing { IsRoutingWithin net.now routing.now.routes }
    requires set { IsSetWithin (length routing.now.routes) set.now }
    requires some { HasShare routing.now.routes link }
    requires weights { length weights.now ≡ link_count net.now }
    requires small { All (λ w. w ≤ 2 ^ 28) weights.now }
    ensures best { IfOk result (λ o. IfSome o (IsBestBlock net.now routing.now.routes set.now link weights.now)) }
    ensures none { IfOk result (λ o. IfNone o ((b : Block) → IsBestBlock net.now routing.now.routes set.now link weights.now b → ⊥)) }
{
    let shared = link_with_shares(alloc, net, routing, set, link)?;
    let metric = metric_by(alloc, net, routing, &shared, weights)?;
    best_block(alloc, net, routing, set, &shared, &metric)
}
