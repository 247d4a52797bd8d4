//! A step by what was prepared for it, and what is kept of that for later steps.
ghost use Rattle.std.specs.Prelude.{◌≡◌, ◌≤◌, IfOk, IsTrue, is_some};
ghost use Rattle.std.specs.Option.{IfSome};
ghost use Rattle.te_model.specs.Network.{is_well_formed};
ghost use Rattle.series_simulation.specs.Rows.{is_rerouted};
ghost use Rattle.series_simulation.specs.StepInput.{IsStepFor, IsStepInput};
ghost use Rattle.series_simulation.specs.SurvivorPreparation.{AreKept, IsPreparedWithout};

use crate::kept_preparations::place_for;
use crate::peak::peak;
use crate::recovery::{is_rerouted, mode_of};
use crate::step_input::StepInput;
use crate::step_matrices::matrix_of;
use crate::step_routing::step_routing;
use crate::step_row::{SimulatedStep, StepRow};
use crate::step_simulation::simulate;
use crate::survivor_preparation::SurvivorPreparation;
use scheme::Adaptive;
use std::alloc::Global;
use te_model::{Items, Memory, Network};

/// The step. Where it is routed anew, `survivor` is what was prepared for the network without its failed links.
fn step_by<'a, S: Adaptive>(
    alloc: Global,
    scheme: &S,
    net: &Network,
    input: &'a StepInput<S::Plan>,
    survivor: Option<&'a SurvivorPreparation<S::Plan>>,
) -> Result<SimulatedStep, Memory>
    requires network { IsTrue (is_well_formed net.now) }
    requires paths { S.Scheme.PATHS ≤ 4096 }
    requires input { IsStepInput (S.Scheme.is_plan scheme.now) net.now input.now }
    requires rerouted { is_some survivor ≡ is_rerouted input.now.recovery input.now.failed.now }
    requires survivor { IfSome survivor (λ made. IsPreparedWithout (S.Scheme.is_plan scheme.now) net.now input.now.failed.now input.now.traffic.now.sent.pairs.list made.now) }
    ensures { IfOk result (IsStepFor S.Scheme.PATHS (S.Scheme.is_plan scheme.now) (S.Scheme.relates scheme.now) S.Note.low (S.path_set_routes scheme.now) (S.adapts scheme.now) net.now input.now) }
{
    let routed = step_routing(alloc, scheme, net, input, survivor)?;
    let mode = mode_of(input.recovery);
    let pairs = &input.traffic.sent.pairs;
    let matrix = matrix_of(&input.traffic.sent, input.step);
    let simulation = simulate(
        alloc,
        mode,
        net,
        input.failed,
        pairs,
        matrix,
        &routed.routing,
    )?;
    let result = simulation.result;
    let peak = peak(net, result.carried.as_slice());
    Ok(SimulatedStep {
        rates: simulation.rates,
        row: StepRow {
            step: input.step,
            result,
            peak,
            parts: routed.parts,
            low: routed.low,
        },
    })
}

/// The step, which is routed anew by what was prepared for the network without its failed links.
fn rerouted_step<S: Adaptive>(
    alloc: Global,
    scheme: &S,
    net: &Network,
    input: &StepInput<S::Plan>,
    made: &SurvivorPreparation<S::Plan>,
) -> Result<SimulatedStep, Memory>
    requires network { IsTrue (is_well_formed net.now) }
    requires paths { S.Scheme.PATHS ≤ 4096 }
    requires input { IsStepInput (S.Scheme.is_plan scheme.now) net.now input.now }
    requires rerouted { IsTrue (is_rerouted input.now.recovery input.now.failed.now) }
    requires made { IsPreparedWithout (S.Scheme.is_plan scheme.now) net.now input.now.failed.now input.now.traffic.now.sent.pairs.list made.now }
    ensures { IfOk result (IsStepFor S.Scheme.PATHS (S.Scheme.is_plan scheme.now) (S.Scheme.relates scheme.now) S.Note.low (S.path_set_routes scheme.now) (S.adapts scheme.now) net.now input.now) }
{
    step_by(alloc, scheme, net, input, Some(made))
}

/// The step. Where it is routed anew, it takes what is kept for its own failed links, and what is prepared for them is kept.
///
/// `later` has for each step that follows one mark for each link, by which what none of them needs is dropped. `Memory` comes where memory
/// is wanting.
pub fn step_keeping<S: Adaptive>(
    alloc: Global,
    scheme: &S,
    net: &Network,
    input: &StepInput<S::Plan>,
    kept: &mut Vec<SurvivorPreparation<S::Plan>>,
    later: &[Items<bool>],
) -> Result<SimulatedStep, Memory>
    requires network { IsTrue (is_well_formed net.now) }
    requires paths { S.Scheme.PATHS ≤ 4096 }
    requires input { IsStepInput (S.Scheme.is_plan scheme.now) net.now input.now }
    requires kept { AreKept (S.Scheme.is_plan scheme.now) net.now input.now.traffic.now.sent.pairs.list kept.old.items }
    ensures step { IfOk result (IsStepFor S.Scheme.PATHS (S.Scheme.is_plan scheme.now) (S.Scheme.relates scheme.now) S.Note.low (S.path_set_routes scheme.now) (S.adapts scheme.now) net.now input.now) }
    ensures kept { IfOk result (λ made. AreKept (S.Scheme.is_plan scheme.now) net.now input.now.traffic.now.sent.pairs.list kept.new.items) }
{
    if !is_rerouted(input.recovery, input.failed) {
        let simulated = step_by(alloc, scheme, net, input, None)?;
        return Ok(simulated);
    }
    let pairs = &input.traffic.sent.pairs;
    let place = place_for(alloc, scheme, net, input.failed, pairs, kept, later)?;
    let simulated = rerouted_step(alloc, scheme, net, input, &kept[place])?;
    Ok(simulated)
}
