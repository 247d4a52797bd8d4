//! `publish PLAN`: the certificate of the routing for which a plan asks.
ghost use Rattle.std.specs.Prelude.{◌≡◌, ◌≤◌, ◌<◌, IfOk, IfErr, IfSome, IsTrue, string_bytes};
ghost use Rattle.te_model.specs.Network.{is_well_formed, link_count, node_count};
ghost use Rattle.traffic_matrix.specs.Limits.{IsSeries};
ghost use Rattle.traffic_matrix.specs.Traffic.{traffic_of};
ghost use Rattle.plan.specs.Plan.{InRange};
ghost use Rattle.command_frame.specs.declared.answer.Fault.TheVariants.{Memory as OutOfMemory};
ghost use Rattle.plan_commands.specs.Publish.{IsPublication, no_path_line};
ghost use Rattle.command_frame.specs.Outcome.{status_of, answer_text};

use command_files::{Inputs, inputs_in, predictions_in, traffic_of};
use command_frame::{Answer, Ask, Fault};
use plan::Experiment;
use scheme::SchemeFault;
use std::alloc::Global;
use te_model::{Memory, Network, Pair};
use te_ports::Depot;
use traffic_matrix::Series;

/// `publish PLAN`.
#[derive(Clone, Copy)]
pub struct Publish<'a> {
    pub plan: &'a str,
}

impl<'a> Ask for Publish<'a> {
    ghost use Rattle.plan_commands.specs.Publish.{publish_entry};

    ghost reading = { λ c. (publish_entry c.plan.now).reading };

    fn answer<D: Depot>(&self, alloc: Global, depot: &mut D) -> Result<Answer, Fault> {
        let inputs = inputs_in(alloc, depot, self.plan, None)?;
        let predictions = predictions_in(alloc, depot, &inputs)?;
        certify_declared(alloc, inputs, predictions)
    }
}

// The answer of these inputs, in which the predictions declare pairs.
fn certify_declared(
    alloc: Global,
    inputs: Inputs,
    predictions: Option<Series>,
) -> Result<Answer, Fault>
    requires plan { InRange inputs.plan }
    requires network { IsTrue (is_well_formed inputs.network) }
    requires links { 1 ≤ link_count inputs.network }
    requires series { IsSeries (node_count inputs.network) inputs.series }
    requires predictions { IfSome predictions (IsSeries (node_count inputs.network)) }
    ensures answer { IfOk result (λ answer. IsPublication inputs.plan inputs.network
        (traffic_of (node_count inputs.network) inputs.series predictions).sent (status_of answer) (answer_text answer)) }
    ensures memory { IfErr result (λ fault. fault ≡ OutOfMemory) }
{
    let Inputs {
        plan,
        network,
        series,
    } = inputs;
    let traffic = traffic_of(alloc, &network, series, predictions)?;
    certify(alloc, &plan, &network, &traffic.sent)
}

// The line of a pair that has no path.
fn no_path_line(alloc: Global, network: &Network, pair: Pair) -> Result<String, Memory>
    requires src { pair.src < node_count network.now }
    requires dst { pair.dst < node_count network.now }
    ensures { IfOk result (λ line. string_bytes line ≡ no_path_line network.now pair) }
{
    let names = network.names.as_slice();
    let source = names[pair.src as usize].as_str();
    let destination = names[pair.dst as usize].as_str();
    Ok(format!(in alloc; "no path: {source} {destination}\n")?)
}

// The answer of a plan on its network and its series.
fn certify(
    alloc: Global,
    plan: &Experiment,
    network: &Network,
    series: &Series,
) -> Result<Answer, Fault>
    requires plan { InRange plan.now }
    requires network { IsTrue (is_well_formed network.now) }
    requires links { 1 ≤ link_count network.now }
    requires series { IsSeries (node_count network.now) series.now }
    ensures answer { IfOk result (λ answer. IsPublication plan.now network.now series.now (status_of answer) (answer_text answer)) }
    ensures memory { IfErr result (λ fault. fault ≡ OutOfMemory) }
{
    match experiment::certificate_file(alloc, plan, network, series) {
        Ok(file) => Ok(Answer::Done(file)),
        Err(SchemeFault::NoPath(place)) => {
            let pair = series.pairs.list.as_slice()[place as usize];
            let line = no_path_line(alloc, network, pair)?;
            Ok(Answer::NoPath(line.into_bytes()))
        }
        Err(SchemeFault::Memory) => Err(Fault::Memory),
    }
}
