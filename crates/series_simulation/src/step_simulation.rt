//! The simulation of a step by a routing of some of the declared pairs.
ghost use Rattle.std.specs.Prelude.{◌≡◌, ◌≤◌, EachIndex, IfOk, IsTrue, length, slice_index};
ghost use Rattle.te_model.specs.Network.{is_well_formed, link_count, capacity_of};
ghost use Rattle.te_model.specs.PathRouting.{IsPathRouting};
ghost use Rattle.routing.specs.Routes.{AreDemands, HasFewPaths};
ghost use Rattle.local_recovery.specs.Rates.{ArePairs, IsRates, pairs_of};
ghost use Rattle.local_recovery.specs.Spread.{IsSublist};
ghost use Rattle.series_simulation.specs.Simulation.{IsConservedStep, IsSimulated};

use flow_sim::{StepResult, step};
use local_recovery::{Mode, Recovered, recover};
use routing::Routing;
use std::alloc::Global;
use te_model::{Matrix, Memory, Network, Pairs};

/// The paths that the demands of a step take, and what becomes of the demands on them.
#[derive(Drop)]
pub struct Simulation {
    pub rates: Recovered,
    pub result: StepResult,
}

/// What becomes of the demands of all pairs in a step, on what is left of the routing in the mode.
///
/// The routing is of some of the pairs; the others have no path. `failed` has one mark for each link, and `matrix` one demand for
/// each of `pairs`. `Memory` comes where memory is wanting.
pub fn simulate(
    alloc: Global,
    mode: Mode,
    net: &Network,
    failed: &[bool],
    pairs: &Pairs,
    matrix: &Matrix,
    routing: &Routing,
) -> Result<Simulation, Memory>
    requires network { IsTrue (is_well_formed net.now) }
    requires marks { length failed.now ≡ link_count net.now }
    requires pairs { ArePairs net.now pairs.now.list }
    requires demands { AreDemands (length pairs.now.list) matrix.now.demand }
    requires routing { IsPathRouting net.now routing.now.routes }
    requires few { HasFewPaths 4096 routing.now.routes }
    requires some { IsSublist (pairs_of routing.now.routes) pairs.now.list }
    ensures simulated { IfOk result (λ s. IsSimulated mode net.now failed.now pairs.now.list matrix.now.demand routing.now.routes s.rates.routes s.result) }
    ensures rates { IfOk result (λ s. IsRates net.now s.rates.routes) }
    ensures conserved { IfOk result (λ s. IsConservedStep matrix.now.demand s.result) }
    ensures count { IfOk result (λ s. length s.result.carried ≡ link_count net.now) }
    ensures within { IfOk result (λ s. EachIndex s.result.carried (λ e. slice_index s.result.carried e ≤ capacity_of net.now e)) }
{
    let left = recover(alloc, mode, net, failed, routing)?;
    let rates = left.spread(alloc, pairs)?;
    let result = step(alloc, net, failed, &rates, matrix)?;
    Ok(Simulation { rates, result })
}
