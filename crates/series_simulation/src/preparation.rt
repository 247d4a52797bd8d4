//! What a scheme prepares for the pairs that have a path.
ghost use Rattle.std.specs.Prelude.{◌≡◌, ◌≤◌, IfOk, IsTrue, filter};
ghost use Rattle.te_model.specs.Network.{is_well_formed};
ghost use Rattle.scheme.specs.Reach.{AllReached, ArePairsOf};
ghost use Rattle.series_simulation.specs.Connected.{TellsPaths, connects};

use crate::connected_pairs::connected_pairs;
use crate::reachability::Reachability;
use scheme::{Scheme, SchemeFault};
use std::alloc::Global;
use te_model::{Memory, Network, Pairs};

/// Which nodes of a network have a path to which, and a scheme's plan for the declared pairs that have one.
#[derive(Drop)]
pub struct Preparation<P> {
    /// Which nodes have a path to which.
    pub reach: Reachability,
    /// The plan for the pairs that have a path.
    pub plan: P,
}

/// The scheme's plan for pairs that all have a path.
fn plan_for<S: Scheme>(
    alloc: Global,
    scheme: &S,
    net: &Network,
    pairs: &Pairs,
) -> Result<S::Plan, Memory>
    requires network { IsTrue (is_well_formed net.now) }
    requires pairs { ArePairsOf net.now pairs.now.list }
    requires reached { AllReached net.now pairs.now.list }
    ensures { IfOk result (S.is_plan scheme.now net.now pairs.now.list) }
{
    match scheme.prepare(alloc, net, pairs) {
        Ok(plan) => Ok(plan),
        Err(SchemeFault::Memory) => Err(Memory),
        Err(SchemeFault::NoPath(_)) => unreachable!(),
    }
}

/// The scheme's plan for those of the pairs that have a path in the network. `Memory` comes where memory is wanting.
pub fn prepare_connected<S: Scheme>(
    alloc: Global,
    scheme: &S,
    net: &Network,
    pairs: &Pairs,
) -> Result<Preparation<S::Plan>, Memory>
    requires network { IsTrue (is_well_formed net.now) }
    requires pairs { ArePairsOf net.now pairs.now.list }
    ensures tells { IfOk result (λ p. TellsPaths net.now (connects p.reach)) }
    ensures planned { IfOk result (λ p. S.is_plan scheme.now net.now (filter (connects p.reach) pairs.now.list) p.plan) }
{
    let reach = Reachability::of(alloc, net)?;
    let reached = connected_pairs(alloc, &reach, pairs)?;
    let plan = plan_for(alloc, scheme, net, &reached)?;
    Ok(Preparation { reach, plan })
}
