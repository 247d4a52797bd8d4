//! The publishing of the routing that sweeps find: the weights that prove its ratio are offered to its certificate.
ghost use Rattle.std.specs.Prelude.{◌≡◌, ◌<◌, ◌≤◌, IfOk, IfErr, OnOk, IsTrue, length};
ghost use Rattle.te_model.specs.Network.{is_well_formed, link_count};
ghost use Rattle.te_model.specs.Pairs.{AscendPairs};
ghost use Rattle.te_model.specs.declared.demand.DemandSet.TheVariants.{All};
ghost use Rattle.routing.specs.Routes.{HasFewPaths, IsRoutingOf};
ghost use Rattle.path_budget.specs.Budget.{trimmed_routes};
ghost use Rattle.best_blocks.specs.Conditions.{IsRoutingWithin, IsSetWithin};
ghost use Rattle.ratio_certificate.specs.Offers.{AreOffers, IsMadeWithinAll};
ghost use Rattle.ratio_certificate.specs.Weighting.{AreWeights};
ghost use Rattle.robust_routing.specs.Robust.{IsRobustPlan, ways_of};
ghost use Rattle.robust_routing.specs.Weights.{AreLinkWeights, AreWeightsOfLinks};
ghost use Rattle.robust_routing.specs.declared.robust.RobustPlan.{RobustPlan};
ghost use Rattle.scheme.specs.Fault.{IsFault};
ghost use Rattle.scheme.specs.Reach.{AllReached, ArePairsOf};

use path_budget::trim;
use ratio_certificate::{Offer, improve, make};
use robust_routing::{Robust, RobustPlan};
use routing::Routing;
use scheme::{Scheme, SchemeFault};
use std::alloc::Global;
use te_model::{Certificate, DemandSet, Items, Memory, Network, Pairs};

/// The weights as an offer for the link.
fn offer_for(alloc: Global, net: &Network, link: usize, weights: &[u64]) -> Result<Offer, Memory>
    requires network { IsTrue (is_well_formed net.now) }
    requires link { link < link_count net.now }
    requires weights { AreLinkWeights net.now weights.now }
    ensures { IfOk result (λ o. AreWeights net.now o.weights) }
{
    let weights = Vec::from_slice(alloc, weights)?;
    Ok(Offer {
        link: link as u32,
        weights: Items::new(weights),
    })
}

/// The weights of the plan for each link, as offers.
fn offers_by(alloc: Global, net: &Network, plan: &RobustPlan) -> Result<Vec<Offer>, Memory>
    requires network { IsTrue (is_well_formed net.now) }
    requires weights { AreWeightsOfLinks net.now plan.now.weights }
    ensures { IfOk result (λ o. AreOffers net.now o.items) }
{
    let lists = plan.weights.as_slice();
    let mut offers = Vec::with_capacity(alloc, lists.len())?;
    for link in 0..lists.len() {
        offers.push(offer_for(alloc, net, link, lists[link].as_slice())?)?;
    }
    Ok(offers)
}

/// Whether the set is that of all matrices.
fn has_all_matrices(set: &DemandSet) -> bool
    ensures { IsTrue result → set.now ≡ All }
{
    match set {
        DemandSet::All => true,
        DemandSet::Margin { .. } => false,
        DemandSet::Box { .. } => false,
    }
}

/// A certificate of the routing. The weights of the plan are for all matrices, so that a set between bounds is not made from them.
fn certify(
    alloc: Global,
    net: &Network,
    routing: &Routing,
    plan: &RobustPlan,
    set: DemandSet,
) -> Result<Certificate, Memory>
    requires network { IsTrue (is_well_formed net.now) }
    requires links { 1 ≤ link_count net.now }
    requires routing { IsRoutingWithin net.now routing.now.routes }
    requires weights { AreWeightsOfLinks net.now plan.now.weights }
    requires set { IsSetWithin (length routing.now.routes) set }
    ensures { IfOk result (IsMadeWithinAll net.now routing.now.routes set) }
{
    if has_all_matrices(&set) {
        let offers = offers_by(alloc, net, plan)?;
        improve(alloc, net, routing, set, &offers, true)
    } else {
        make(alloc, net, routing, set)
    }
}

/// The routing of the plan, of which each pair keeps the `budget` heaviest paths.
fn routing_by(
    alloc: Global,
    net: &Network,
    pairs: &Pairs,
    plan: &RobustPlan,
    budget: u32,
) -> Result<Routing, Memory>
    requires some { 1 ≤ budget }
    requires few { budget ≤ 32 }
    requires plan { IsRobustPlan (ways_of budget) net.now pairs.now.list plan.now }
    ensures kept { IfOk result (λ r. r.routes ≡ trimmed_routes budget plan.now.routing.routes) }
    ensures routing { IfOk result (λ r. IsRoutingOf net.now pairs.now.list r.routes) }
    ensures few { IfOk result (λ r. HasFewPaths budget r.routes) }
{
    trim(alloc, &plan.routing, budget)
}

/// A certificate of the routing of the plan, of which each pair keeps the `budget` heaviest paths.
fn certificate_by(
    alloc: Global,
    net: &Network,
    pairs: &Pairs,
    plan: &RobustPlan,
    set: DemandSet,
    budget: u32,
) -> Result<Certificate, Memory>
    requires network { IsTrue (is_well_formed net.now) }
    requires links { 1 ≤ link_count net.now }
    requires pairs { ArePairsOf net.now pairs.now.list }
    requires ascending { AscendPairs pairs.now.list }
    requires set { IsSetWithin (length pairs.now.list) set }
    requires some { 1 ≤ budget }
    requires few { budget ≤ 32 }
    requires plan { IsRobustPlan (ways_of budget) net.now pairs.now.list plan.now }
    ensures { IfOk result (IsMadeWithinAll net.now (trimmed_routes budget plan.now.routing.routes) set) }
{
    let routing = routing_by(alloc, net, pairs, plan, budget)?;
    certify(alloc, net, &routing, plan, set)
}

/// A certificate of the routing of the pairs that the scheme finds, of at most `ways` paths a pair, which are from 1 to 32. It is that of
/// `publish`, but that for all matrices the weights by which the sweeps prove its ratio are offered to it.
///
/// `NoPath` names the first pair without a path, exactly where there is one, and `Memory` comes where memory is wanting.
pub fn publish_robust(
    alloc: Global,
    scheme: &Robust,
    net: &Network,
    pairs: &Pairs,
    set: DemandSet,
) -> Result<Certificate, SchemeFault>
    requires network { IsTrue (is_well_formed net.now) }
    requires links { 1 ≤ link_count net.now }
    requires pairs { ArePairsOf net.now pairs.now.list }
    requires ascending { AscendPairs pairs.now.list }
    requires set { IsSetWithin (length pairs.now.list) set }
    requires some { 1 ≤ scheme.now.ways }
    requires few { scheme.now.ways ≤ 32 }
    ensures made { IfOk result (λ c. (plan : RobustPlan) × IsRobustPlan (ways_of scheme.now.ways) net.now pairs.now.list plan
        × IsMadeWithinAll net.now (trimmed_routes scheme.now.ways plan.routing.routes) set c) }
    ensures reached { OnOk result (AllReached net.now pairs.now.list) }
    ensures fault { IfErr result (IsFault net.now pairs.now.list) }
{
    let plan = scheme.prepare(alloc, net, pairs)?;
    let certificate = certificate_by(alloc, net, pairs, &plan, set, scheme.ways)?;
    Ok(certificate)
}
