//! `simulate CERT PLAN`: the routing of a certificate, simulated over the matrices and the failures of a plan.
ghost use Rattle.std.specs.Prelude.{◌≡◌, IfErr, IfOk, List};
ghost use Rattle.te_model.specs.declared.certificate.Block.{Block};
ghost use Rattle.te_model.specs.Network.{node_count};
ghost use Rattle.te_model.specs.Validity.{IsValidHead};
ghost use Rattle.local_recovery.specs.Rates.{pairs_of};
ghost use Rattle.traffic_matrix.specs.Limits.{IsSeries};
ghost use Rattle.traffic_matrix.specs.Outside.{AreAmong};
ghost use Rattle.plan.specs.Plan.{InRange};
ghost use Rattle.certificate_simulation.specs.Report.{IsCertificateReport};
ghost use Rattle.te_ports.specs.Shown.{shown_by};
ghost use Rattle.command_frame.specs.declared.answer.Fault.TheVariants.{Memory as OutOfMemory};
ghost use Rattle.command_frame.specs.Outcome.{Follows, status_of, answer_text};
ghost use Rattle.simulation_command.specs.Simulate.{networked_reading, planned_reading, routed_reading, simulation_reading};

use crate::simulation_files::{RoutedMatrices, TopologiesOf};
use certificate_simulation::{certificate_report, routed_pairs};
use command_files::{Inputs, Plans, head_in, outages_in, predictions_in};
use command_frame::{Answer, Ask, Fault, value_in};
use failure::Failures;
use plan::Experiment;
use std::alloc::Global;
use te_model::{Head, Network};
use te_ports::Depot;

/// `simulate CERT PLAN`.
#[derive(Clone, Copy)]
pub struct Simulate<'a> {
    /// The certificate of the routing.
    pub certificate: &'a str,
    /// The plan of the network, the matrices, the failures and the recovery.
    pub plan: &'a str,
}

impl<'a> Ask for Simulate<'a> {
    ghost use Rattle.simulation_command.specs.Simulate.{simulate_entry};

    ghost reading = { λ c. (simulate_entry c.certificate.now c.plan.now).reading };

    fn answer<D: Depot>(&self, alloc: Global, depot: &mut D) -> Result<Answer, Fault> {
        let head = head_in(alloc, depot, self.certificate)?;
        simulate_head(alloc, depot, head, self.plan)
    }
}

// The answer on the routing of this head by the plan in the file of this name.
fn simulate_head<D: Depot>(
    alloc: Global,
    depot: &mut D,
    head: Head,
    plan: &str,
) -> Result<Answer, Fault>
    requires { IsValidHead head }
    ensures { (blocks : List Block) → Follows (simulation_reading plan.now (record { head = head; blocks = blocks }))
        (shown_by D.content D.gave D.faults depot.old) (shown_by D.content D.gave D.faults depot.new) result }
{
    let named = value_in(alloc, depot, &Plans, plan)?;
    simulate_plan(alloc, depot, head, named)
}

// The answer on the routing of this head by this plan.
fn simulate_plan<D: Depot>(
    alloc: Global,
    depot: &mut D,
    head: Head,
    plan: Experiment,
) -> Result<Answer, Fault>
    requires head { IsValidHead head }
    requires plan { InRange plan }
    ensures { (blocks : List Block) → Follows (planned_reading (record { head = head; blocks = blocks }) plan)
        (shown_by D.content D.gave D.faults depot.old) (shown_by D.content D.gave D.faults depot.new) result }
{
    let own = TopologiesOf {
        network: &head.network,
    };
    let network = value_in(alloc, depot, &own, plan.topology.as_str())?;
    simulate_network(alloc, depot, head, plan, network)
}

// The answer on the routing of this head, whose network is the plan's.
fn simulate_network<D: Depot>(
    alloc: Global,
    depot: &mut D,
    head: Head,
    plan: Experiment,
    network: Network,
) -> Result<Answer, Fault>
    requires head { IsValidHead head }
    requires network { head.network ≡ network }
    ensures { (blocks : List Block) → Follows (networked_reading (record { head = head; blocks = blocks }) plan network)
        (shown_by D.content D.gave D.faults depot.old) (shown_by D.content D.gave D.faults depot.new) result }
{
    let pairs = routed_pairs(alloc, head.routes.as_slice())?;
    let of = RoutedMatrices {
        network: &network,
        pairs: pairs.as_slice(),
    };
    let series = value_in(alloc, depot, &of, plan.matrices.as_str())?;
    let inputs = Inputs {
        plan,
        network,
        series,
    };
    simulate_inputs(alloc, depot, head, &inputs)
}

// The answer on the routing of this head and these inputs. The predictions are read, and change nothing.
fn simulate_inputs<D: Depot>(
    alloc: Global,
    depot: &mut D,
    head: Head,
    inputs: &Inputs,
) -> Result<Answer, Fault>
    requires head { IsValidHead head }
    requires network { head.network ≡ inputs.now.network }
    requires series { IsSeries (node_count inputs.now.network) inputs.now.series }
    requires among { AreAmong inputs.now.series.pairs.list (pairs_of head.routes) }
    ensures { (blocks : List Block) → Follows (routed_reading (record { head = head; blocks = blocks }) inputs.now.plan inputs.now.network inputs.now.series)
        (shown_by D.content D.gave D.faults depot.old) (shown_by D.content D.gave D.faults depot.new) result }
{
    let _predictions = predictions_in(alloc, depot, inputs)?;
    let failures = outages_in(alloc, depot, inputs)?;
    simulate_with(alloc, head, inputs, &failures)
}

// The report of the routing of this head on these inputs and failures.
fn simulate_with(
    alloc: Global,
    head: Head,
    inputs: &Inputs,
    failures: &Failures,
) -> Result<Answer, Fault>
    requires head { IsValidHead head }
    requires series { IsSeries (node_count head.network) inputs.now.series }
    requires among { AreAmong inputs.now.series.pairs.list (pairs_of head.routes) }
    ensures answer { IfOk result (λ answer. (status_of answer ≡ 0)
        × IsCertificateReport head inputs.now.series failures.now inputs.now.plan.recovery (answer_text answer)) }
    ensures memory { IfErr result (λ fault. fault ≡ OutOfMemory) }
{
    let recovery = inputs.plan.recovery;
    let text = certificate_report(alloc, head, &inputs.series, failures, recovery)?;
    Ok(Answer::Done(text))
}
