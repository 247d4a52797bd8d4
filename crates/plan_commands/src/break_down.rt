//! `links PLAN STEP`, `pairs PLAN STEP` and `paths PLAN STEP`: a step of the schemes of a plan, broken down.
ghost use Rattle.std.specs.Prelude.{◌≡◌, ◌<◌, IfErr, IfOk, IfSome, IsTrue, length};
ghost use Rattle.std.specs.Option.{option_map};
ghost use Rattle.te_model.specs.Network.{is_well_formed, node_count};
ghost use Rattle.traffic_matrix.specs.Limits.{IsSeries};
ghost use Rattle.traffic_matrix.specs.Traffic.{traffic_of};
ghost use Rattle.plan.specs.Plan.{InRange};
ghost use Rattle.step_detail.specs.Breakdown.{IsBreakdown};
ghost use Rattle.command_frame.specs.declared.answer.Fault.TheVariants.{Memory as OutOfMemory};
ghost use Rattle.te_ports.specs.Shown.{shown_by};
ghost use Rattle.command_frame.specs.Reading.{answers};
ghost use Rattle.plan_commands.specs.BreakDown.{breakdown_of, step_number};
ghost use Rattle.command_files.specs.PlanReading.{with_failures};
ghost use Rattle.command_frame.specs.Outcome.{Follows, status_of, answer_text};

use command_files::{Inputs, decimal_number, inputs_in, outages_in, predictions_in, traffic_of};
use command_frame::{Answer, Ask, Fault};
use failure::Failures;
use std::alloc::Global;
use step_detail::{Breakdown, breakdown_text};
use te_ports::Depot;
use traffic_matrix::Series;

/// A breakdown of a step of a plan.
#[derive(Clone, Copy)]
pub struct BreakDown<'a> {
    /// By what the step is broken down.
    pub breakdown: Breakdown,
    /// The name of the plan.
    pub plan: &'a str,
    /// The number of the step.
    pub step: u32,
}

impl<'a> Ask for BreakDown<'a> {
    ghost use Rattle.plan_commands.specs.BreakDown.{break_down_entry};

    ghost reading = { λ c. (break_down_entry c.breakdown c.plan.now c.step).reading };

    fn answer<D: Depot>(&self, alloc: Global, depot: &mut D) -> Result<Answer, Fault> {
        let inputs = inputs_in(alloc, depot, self.plan, Some(self.step))?;
        let predictions = predictions_in(alloc, depot, &inputs)?;
        break_down_on(alloc, depot, inputs, predictions, self)
    }
}

// The breakdown of the step on these inputs, predictions and failures.
fn break_down_with(
    alloc: Global,
    inputs: Inputs,
    predictions: Option<Series>,
    failures: &Failures,
    breakdown: Breakdown,
    step: u32,
) -> Result<Answer, Fault>
    requires plan { InRange inputs.plan }
    requires network { IsTrue (is_well_formed inputs.network) }
    requires series { IsSeries (node_count inputs.network) inputs.series }
    requires predictions { IfSome predictions (IsSeries (node_count inputs.network)) }
    requires step { step < length inputs.series.steps }
    ensures answer { IfOk result (λ answer. (status_of answer ≡ 0) × IsBreakdown breakdown inputs.plan inputs.network
        (traffic_of (node_count inputs.network) inputs.series predictions) failures.now step (answer_text answer)) }
    ensures memory { IfErr result (λ fault. fault ≡ OutOfMemory) }
{
    let Inputs {
        plan,
        network,
        series,
    } = inputs;
    let traffic = traffic_of(alloc, &network, series, predictions)?;
    let text = breakdown_text(alloc, breakdown, &plan, &network, &traffic, failures, step)?;
    Ok(Answer::Done(text))
}

// The breakdown that is asked for on these inputs and predictions, for which the failures are read.
fn break_down_on<D: Depot>(
    alloc: Global,
    depot: &mut D,
    inputs: Inputs,
    predictions: Option<Series>,
    asked: &BreakDown<'_>,
) -> Result<Answer, Fault>
    requires plan { InRange inputs.plan }
    requires network { IsTrue (is_well_formed inputs.network) }
    requires series { IsSeries (node_count inputs.network) inputs.series }
    requires predictions { IfSome predictions (IsSeries (node_count inputs.network)) }
    requires step { asked.now.step < length inputs.series.steps }
    ensures { Follows (with_failures inputs.network inputs.series inputs.plan.failures (λ failures.
        answers (breakdown_of asked.now.breakdown inputs.plan inputs.network (traffic_of (node_count inputs.network) inputs.series predictions) failures asked.now.step)))
        (shown_by D.content D.gave D.faults depot.old) (shown_by D.content D.gave D.faults depot.new) result }
{
    let failures = outages_in(alloc, depot, &inputs)?;
    let breakdown = asked.breakdown;
    break_down_with(alloc, inputs, predictions, &failures, breakdown, asked.step)
}

/// The step of which the word is the decimal, where it is below 1024.
pub fn step_of(word: &str) -> Option<u32>
    ensures { result ≡ step_number word.now }
{
    let number = decimal_number(word)?;
    if number < 1024 {
        Some(number as u32)
    } else {
        None
    }
}
