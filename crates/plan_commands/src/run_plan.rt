//! `run PLAN`: the report of the schemes that a plan compares.
ghost use Rattle.std.specs.Prelude.{◌≡◌, IfErr, IfOk, IfSome, IsTrue};
ghost use Rattle.te_model.specs.Network.{is_well_formed, node_count};
ghost use Rattle.traffic_matrix.specs.Limits.{IsSeries};
ghost use Rattle.traffic_matrix.specs.Traffic.{traffic_of};
ghost use Rattle.plan.specs.Plan.{InRange};
ghost use Rattle.experiment.specs.Report.{IsReport};
ghost use Rattle.command_frame.specs.declared.answer.Fault.TheVariants.{Memory as OutOfMemory};
ghost use Rattle.te_ports.specs.Shown.{shown_by};
ghost use Rattle.command_frame.specs.Reading.{answers};
ghost use Rattle.plan_commands.specs.Report.{report_of};
ghost use Rattle.command_files.specs.PlanReading.{with_failures};
ghost use Rattle.command_frame.specs.Outcome.{Follows, status_of, answer_text};

use command_files::{Inputs, inputs_in, outages_in, predictions_in, traffic_of};
use command_frame::{Answer, Ask, Fault};
use failure::Failures;
use std::alloc::Global;
use te_ports::Depot;
use traffic_matrix::Series;

/// `run PLAN`.
#[derive(Clone, Copy)]
pub struct RunPlan<'a> {
    pub plan: &'a str,
}

impl<'a> Ask for RunPlan<'a> {
    ghost use Rattle.plan_commands.specs.Report.{run_entry};

    ghost reading = { λ c. (run_entry c.plan.now).reading };

    fn answer<D: Depot>(&self, alloc: Global, depot: &mut D) -> Result<Answer, Fault> {
        let inputs = inputs_in(alloc, depot, self.plan, None)?;
        let predictions = predictions_in(alloc, depot, &inputs)?;
        report_on(alloc, depot, inputs, predictions)
    }
}

// The report on these inputs, predictions and failures.
fn report_with(
    alloc: Global,
    inputs: Inputs,
    predictions: Option<Series>,
    failures: &Failures,
) -> Result<Answer, Fault>
    requires plan { InRange inputs.plan }
    requires network { IsTrue (is_well_formed inputs.network) }
    requires series { IsSeries (node_count inputs.network) inputs.series }
    requires predictions { IfSome predictions (IsSeries (node_count inputs.network)) }
    ensures answer { IfOk result (λ answer. (status_of answer ≡ 0) × IsReport inputs.plan inputs.network
        (traffic_of (node_count inputs.network) inputs.series predictions) failures.now (answer_text answer)) }
    ensures memory { IfErr result (λ fault. fault ≡ OutOfMemory) }
{
    let Inputs {
        plan,
        network,
        series,
    } = inputs;
    let traffic = traffic_of(alloc, &network, series, predictions)?;
    let text = experiment::report(alloc, &plan, &network, &traffic, failures)?;
    Ok(Answer::Done(text))
}

// The report on these inputs and predictions, for which the failures are read.
fn report_on<D: Depot>(
    alloc: Global,
    depot: &mut D,
    inputs: Inputs,
    predictions: Option<Series>,
) -> Result<Answer, Fault>
    requires plan { InRange inputs.plan }
    requires network { IsTrue (is_well_formed inputs.network) }
    requires series { IsSeries (node_count inputs.network) inputs.series }
    requires predictions { IfSome predictions (IsSeries (node_count inputs.network)) }
    ensures { Follows (with_failures inputs.network inputs.series inputs.plan.failures
        (λ failures. answers (report_of inputs.plan inputs.network (traffic_of (node_count inputs.network) inputs.series predictions) failures)))
        (shown_by D.content D.gave D.faults depot.old) (shown_by D.content D.gave D.faults depot.new) result }
{
    let failures = outages_in(alloc, depot, &inputs)?;
    report_with(alloc, inputs, predictions, &failures)
}
