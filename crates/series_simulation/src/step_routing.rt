//! The routing of a step: as it was prepared, or made anew on the network that is left of failed links.
ghost use Rattle.std.specs.Prelude.{◌≡◌, ◌≤◌, IfOk, IsTrue, filter, is_some, length};
ghost use Rattle.std.specs.Option.{IfSome, option_map};
ghost use Rattle.te_model.specs.Network.{is_well_formed, link_count};
ghost use Rattle.te_model.specs.Pairs.{AscendPairs};
ghost use Rattle.te_model.specs.PathRouting.{IsPathRouting};
ghost use Rattle.routing.specs.Routes.{AreDemands, HasFewPaths};
ghost use Rattle.scheme.specs.Reach.{ArePairsOf};
ghost use Rattle.local_recovery.specs.Rates.{pairs_of};
ghost use Rattle.local_recovery.specs.Spread.{IsSublist};
ghost use Rattle.series_simulation.specs.Connected.{TellsPaths, connects};
ghost use Rattle.traffic_matrix.specs.Traffic.{predicted_in, sent_in};
ghost use Rattle.series_simulation.specs.Rows.{AreDemandsIfSome, IsRoutedByPlan, IsStepRouting, is_rerouted};
ghost use Rattle.series_simulation.specs.StepInput.{IsStepInput};
ghost use Rattle.series_simulation.specs.SurvivorPreparation.{IsPreparedWithout};

use crate::adapted_rates::adapt;
use crate::preparation::Preparation;
use crate::recovery::paths_to_adapt;
use crate::scheme_routing::{SchemeRouting, route_connected};
use crate::step_input::StepInput;
use crate::step_matrices::{matrix_of, predicted_of};
use crate::survivor_preparation::{SurvivorPreparation, route_survivor};
use plan::Recovery;
use scheme::Adaptive;
use std::alloc::Global;
use te_model::{Matrix, Memory, Network, Pairs};

/// The scheme's routing of a step by the plan for the whole network, or rates that it chooses anew over those paths of the plan that stand.
///
/// `failed` has one mark for each link, and `matrix` one demand for each of `pairs`. `Memory` comes where memory is wanting.
fn route_by_plan<S: Adaptive>(
    alloc: Global,
    scheme: &S,
    net: &Network,
    prepared: &Preparation<S::Plan>,
    failed: &[bool],
    pairs: &Pairs,
    predicted: Option<&Matrix>,
    matrix: &Matrix,
    recovery: Recovery,
) -> Result<SchemeRouting, Memory>
    requires network { IsTrue (is_well_formed net.now) }
    requires marks { length failed.now ≡ link_count net.now }
    requires pairs { ArePairsOf net.now pairs.now.list }
    requires ascending { AscendPairs pairs.now.list }
    requires paths { S.Scheme.PATHS ≤ 4096 }
    requires tells { TellsPaths net.now (connects prepared.now.reach) }
    requires planned { S.Scheme.is_plan scheme.now net.now (filter (connects prepared.now.reach) pairs.now.list) prepared.now.plan }
    requires predicted { AreDemandsIfSome (length pairs.now.list) (option_map (λ m. m.now.demand) predicted) }
    requires demands { AreDemands (length pairs.now.list) matrix.now.demand }
    ensures routed { IfOk result (λ r. IsRoutedByPlan S.Scheme.PATHS (S.Scheme.is_plan scheme.now) (S.Scheme.relates scheme.now) S.Note.low
        (S.path_set_routes scheme.now) (S.adapts scheme.now) net.now failed.now
        pairs.now.list (option_map (λ m. m.now.demand) predicted.entry) matrix.now.demand recovery prepared.now.plan r.routing.routes r.parts r.low) }
    ensures routing { IfOk result (λ r. IsPathRouting net.now r.routing.routes) }
    ensures pairs { IfOk result (λ r. IsSublist (pairs_of r.routing.routes) pairs.now.list) }
    ensures few { IfOk result (λ r. HasFewPaths S.Scheme.PATHS r.routing.routes) }
{
    match paths_to_adapt(recovery, failed, scheme.path_set(&prepared.plan)) {
        Some(paths) => {
            let adapted = adapt(
                alloc, scheme, net, prepared, paths, failed, pairs, predicted, matrix,
            )?;
            Ok(adapted)
        }
        None => {
            let routed = route_connected(alloc, scheme, net, prepared, pairs, predicted, matrix)?;
            Ok(routed)
        }
    }
}

/// The scheme's routing of a step: by the plan for the whole network, or anew where the recovery says so and a link has failed.
///
/// Of such a step `survivor` is what was prepared for the network without its failed links. `Memory` comes where memory is wanting.
pub fn step_routing<S: Adaptive>(
    alloc: Global,
    scheme: &S,
    net: &Network,
    input: &StepInput<S::Plan>,
    survivor: Option<&SurvivorPreparation<S::Plan>>,
) -> Result<SchemeRouting, Memory>
    requires network { IsTrue (is_well_formed net.now) }
    requires paths { S.Scheme.PATHS ≤ 4096 }
    requires input { IsStepInput (S.Scheme.is_plan scheme.now) net.now input.now }
    requires rerouted { is_some survivor ≡ is_rerouted input.now.recovery input.now.failed.now }
    requires survivor { IfSome survivor (λ made. IsPreparedWithout (S.Scheme.is_plan scheme.now) net.now input.now.failed.now input.now.traffic.now.sent.pairs.list made.now) }
    ensures routed { IfOk result (λ r. IsStepRouting S.Scheme.PATHS (S.Scheme.is_plan scheme.now) (S.Scheme.relates scheme.now) S.Note.low
        (S.path_set_routes scheme.now) (S.adapts scheme.now) net.now input.now.failed.now
        input.now.traffic.now.sent.pairs.list (predicted_in input.now.traffic.now input.now.step) (sent_in input.now.traffic.now input.now.step)
        input.now.recovery input.now.prepared.now.plan r.routing.routes r.parts r.low) }
    ensures routing { IfOk result (λ r. IsPathRouting net.now r.routing.routes) }
    ensures pairs { IfOk result (λ r. IsSublist (pairs_of r.routing.routes) input.now.traffic.now.sent.pairs.list) }
    ensures few { IfOk result (λ r. HasFewPaths S.Scheme.PATHS r.routing.routes) }
{
    let pairs = &input.traffic.sent.pairs;
    let predicted = predicted_of(input.traffic, input.step);
    let matrix = matrix_of(&input.traffic.sent, input.step);
    match survivor {
        Some(made) => {
            let anew = route_survivor(alloc, scheme, net, made, pairs, predicted, matrix)?;
            Ok(anew)
        }
        None => {
            let prepared = input.prepared;
            let failed = input.failed;
            let recovery = input.recovery;
            let routed = route_by_plan(
                alloc, scheme, net, prepared, failed, pairs, predicted, matrix, recovery,
            )?;
            Ok(routed)
        }
    }
}
