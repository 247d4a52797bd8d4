//! The publishing of an oblivious routing with its certificate.
ghost use Rattle.std.specs.Prelude.{◌≡◌, ◌≤◌, IfOk, IfErr, OnOk, IsTrue, length};
ghost use Rattle.te_model.specs.Network.{is_well_formed, link_count};
ghost use Rattle.path_budget.specs.Budget.{trimmed_routes};
ghost use Rattle.best_blocks.specs.Conditions.{IsSetWithin};
ghost use Rattle.ratio_certificate.specs.Offers.{IsMadeWithinAll};
ghost use Rattle.routing.specs.Routes.{HasFewPaths, IsRoutingOf};
ghost use Rattle.scheme.specs.Fault.{IsFault};
ghost use Rattle.scheme.specs.Reach.{AllReached, ArePairsOf};
ghost use Rattle.te_model.specs.Pairs.{AscendPairs};

use path_budget::trim;
use ratio_certificate::make;
use routing::Routing;
use scheme::{Oblivious, SchemeFault};
use std::alloc::Global;
use te_model::{Certificate, DemandSet, Network, Pairs};

/// The scheme's routing of the pairs, of each of which the `budget` heaviest paths are kept.
fn budgeted_routing<S: Oblivious>(
    alloc: Global,
    scheme: &S,
    net: &Network,
    pairs: &Pairs,
    budget: u32,
) -> Result<Routing, SchemeFault>
    requires network { IsTrue (is_well_formed net.now) }
    requires pairs { ArePairsOf net.now pairs.now.list }
    requires some { 1 ≤ budget }
    requires few { budget ≤ 32 }
    ensures kept { IfOk result (λ r. (plan : S.Plan) × S.Scheme.is_plan scheme.now net.now pairs.now.list plan
        × (r.routes ≡ trimmed_routes budget (S.fixed_routes scheme.now plan))) }
    ensures routing { IfOk result (λ r. IsRoutingOf net.now pairs.now.list r.routes) }
    ensures few { IfOk result (λ r. HasFewPaths budget r.routes) }
    ensures reached { OnOk result (AllReached net.now pairs.now.list) }
    ensures fault { IfErr result (IsFault net.now pairs.now.list) }
{
    let plan = scheme.prepare(alloc, net, pairs)?;
    let routing = trim(alloc, scheme.fixed(&plan), budget)?;
    Ok(routing)
}

/// A certificate of the scheme's routing of the pairs, of each of which the `budget` heaviest paths are kept. Its format is the
/// first where the network has at most 64 nodes and 512 links and the set is no box, and else the second, in which a margin stands
/// as its box. Between bounds no block needs more than by the weights that are found for all matrices.
///
/// `NoPath` names the first pair without a path, exactly where there is one, and `Memory` comes
/// where memory is wanting.
pub fn publish<S: Oblivious>(
    alloc: Global,
    scheme: &S,
    net: &Network,
    pairs: &Pairs,
    set: DemandSet,
    budget: u32,
) -> Result<Certificate, SchemeFault>
    requires network { IsTrue (is_well_formed net.now) }
    requires links { 1 ≤ link_count net.now }
    requires pairs { ArePairsOf net.now pairs.now.list }
    requires ascending { AscendPairs pairs.now.list }
    requires set { IsSetWithin (length pairs.now.list) set }
    requires some { 1 ≤ budget }
    requires few { budget ≤ 32 }
    ensures made { IfOk result (λ c. (plan : S.Plan) × S.Scheme.is_plan scheme.now net.now pairs.now.list plan
        × IsMadeWithinAll net.now (trimmed_routes budget (S.fixed_routes scheme.now plan)) set c) }
    ensures reached { OnOk result (AllReached net.now pairs.now.list) }
    ensures fault { IfErr result (IsFault net.now pairs.now.list) }
{
    let routing = budgeted_routing(alloc, scheme, net, pairs, budget)?;
    let certificate = make(alloc, net, &routing, set)?;
    Ok(certificate)
}
