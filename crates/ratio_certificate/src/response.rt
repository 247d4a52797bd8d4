//! What the worst matrix for weights of a link puts on the links, where each pair takes a least way.
ghost use Rattle.std.specs.Prelude.{◌≡◌, ◌^◌, ◌≤◌, IfOk, IsTrue, length};
ghost use Rattle.te_model.specs.Demand.{lower_of, upper_of};
ghost use Rattle.te_model.specs.Network.{is_well_formed, link_count};
ghost use Rattle.centred_steps.specs.Loads.{AreLoadsWithin, AreSmall};
ghost use Rattle.centred_steps.specs.Ways.{AreLastLinks};
ghost use Rattle.ratio_certificate.specs.Form.{HasBounds};
ghost use Rattle.ratio_certificate.specs.Pricing.{IsPricing};
ghost use Rattle.ratio_certificate.specs.Response.{HasRow};

use crate::problem::Problem;
use best_blocks::{Metric, Scale, SharedLink};
use centred_steps::{add_load_along, clear_loads, last_links, narrowest_on};
use kept_ways::{amount_of, nearness};
use std::alloc::Global;
use te_model::{DemandSet, Memory, Network, SHARE_UNIT};

/// What stands for a node that is not there.
pub const NO_NODE: u32 = u32::MAX;

/// The least ways from one node after another, by the links with which they end.
#[derive(Drop)]
pub struct Ways {
    /// The node from which they lead, or `NO_NODE`.
    pub from: u32,
    /// For each node the last link of the way to it.
    pub lasts: Vec<Option<u32>>,
}

/// No ways from any node.
pub fn no_ways(alloc: Global, net: &Network) -> Result<Ways, Memory>
    ensures { IfOk result (λ w. AreLastLinks net.now w.lasts.items) }
{
    let lasts = vec![in alloc; None; net.names.as_slice().len()]?;
    Ok(Ways {
        from: NO_NODE,
        lasts,
    })
}

/// Turns the ways to those from the node, by the distances from it.
pub fn turn(net: &Network, metric: &Metric, ways: &mut Ways, from: u32)
    requires network { IsTrue (is_well_formed net.now) }
    requires weights { length metric.now.weights ≡ link_count net.now }
    requires row { HasRow net.now metric.now from }
    requires ways { AreLastLinks net.now ways.old.lasts.items }
    ensures { AreLastLinks net.now ways.new.lasts.items }
{
    if ways.from != from {
        let row = metric.rows.as_slice()[from as usize].as_slice();
        last_links(net, metric.weights.as_slice(), row, &mut ways.lasts);
        ways.from = from;
    }
}

/// What a pair sends in the worst matrix between the bounds: the upper one where its share asks for as much as its distance gives.
fn demand_of(set: &DemandSet, pair: usize, share: u64, distance: u64, b: u64) -> u64
    requires lower { lower_of set.now pair ≤ 2 ^ 52 }
    requires upper { upper_of set.now pair ≤ 2 ^ 52 }
{
    let asked = u128::from(b) * u128::from(share);
    let given = u128::from(SHARE_UNIT) * u128::from(distance);
    if asked >= given {
        set.upper(pair)
    } else {
        set.lower(pair)
    }
}

/// Scaled weights of a link, to which the worst matrix is the response.
#[derive(Clone, Copy)]
pub struct Pricing<'a> {
    pub problem: Problem<'a>,
    pub shared: &'a SharedLink,
    /// The metric of the weights.
    pub metric: &'a Metric,
    /// By what the weights are scaled.
    pub scale: Scale,
    /// Of all matrices, in the worst one the pairs send that are the dearest up to one part in so many.
    pub near: u128,
}

impl<'a> Pricing<'a> {
    /// Adds the loads of the worst of all matrices, in which the pairs send that are the dearest up to one part in `near`.
    fn add_dearest(&self, ways: &mut Ways, loads: &mut [u128])
        requires pricing { IsPricing self.now }
        requires ways { AreLastLinks self.now.problem.net.now ways.old.lasts.items }
        requires loads { AreLoadsWithin self.now.problem.net.now loads.old }
        ensures ways { AreLastLinks self.now.problem.net.now ways.new.lasts.items }
        ensures loads { AreSmall loads.new }
    {
        let (net, scale) = (self.problem.net, self.scale);
        let routes = self.problem.routing.routes.as_slice();
        let distances = self.metric.distances.as_slice();
        for entry in self.shared.list.as_slice() {
            let p = entry.pair as usize;
            let worth = u128::from(entry.share) * u128::from(scale.b);
            let most = u128::from(scale.a) * u128::from(distances[p]);
            let above = nearness(worth, most, self.near);
            if above > 0 {
                let pair = routes[p].pair;
                turn(net, self.metric, ways, pair.src);
                let capacity = narrowest_on(net, &ways.lasts, pair.dst);
                let amount = amount_of(capacity, above, most);
                add_load_along(net, &ways.lasts, pair.dst, amount, loads);
            }
        }
    }

    /// Adds the loads of the worst matrix between the bounds of the set.
    fn add_between(&self, ways: &mut Ways, loads: &mut [u128])
        requires pricing { IsPricing self.now }
        requires bounded { HasBounds self.now.problem.set.now }
        requires ways { AreLastLinks self.now.problem.net.now ways.old.lasts.items }
        requires loads { AreLoadsWithin self.now.problem.net.now loads.old }
        ensures ways { AreLastLinks self.now.problem.net.now ways.new.lasts.items }
        ensures loads { AreSmall loads.new }
    {
        let (net, set, b) = (self.problem.net, self.problem.set, self.scale.b);
        let routes = self.problem.routing.routes.as_slice();
        let shares = self.shared.shares.as_slice();
        let distances = self.metric.distances.as_slice();
        for p in 0..routes.len() {
            let demand = demand_of(set, p, shares[p], distances[p], b);
            if demand > 0 {
                let pair = routes[p].pair;
                turn(net, self.metric, ways, pair.src);
                add_load_along(net, &ways.lasts, pair.dst, u128::from(demand), loads);
            }
        }
    }

    /// Writes the loads of the worst matrix for the weights. Takes no memory.
    ///
    /// `ways` and `loads` are room for what is written: a link for each node, and a load for each link.
    pub fn respond(&self, ways: &mut Ways, loads: &mut [u128])
        requires pricing { IsPricing self.now }
        requires ways { AreLastLinks self.now.problem.net.now ways.old.lasts.items }
        requires loads { AreLoadsWithin self.now.problem.net.now loads.old }
        ensures ways { AreLastLinks self.now.problem.net.now ways.new.lasts.items }
        ensures loads { AreLoadsWithin self.now.problem.net.now loads.new }
    {
        clear_loads(loads);
        ways.from = NO_NODE;
        match self.problem.set {
            DemandSet::All => self.add_dearest(ways, loads),
            DemandSet::Margin { .. } => self.add_between(ways, loads),
            DemandSet::Box { .. } => self.add_between(ways, loads),
        }
    }
}
