//! What a plan and the files that it names give.
ghost use Rattle.std.specs.Prelude.{◌≡◌, ◌≤◌, IfOk, IfSome, IsTrue, length};
ghost use Rattle.te_model.specs.Network.{is_well_formed, link_count, node_count};
ghost use Rattle.traffic_matrix.specs.Limits.{IsSeries};
ghost use Rattle.traffic_matrix.specs.Traffic.{IsTraffic, traffic_of};
ghost use Rattle.plan.specs.Plan.{InRange};
ghost use Rattle.te_ports.specs.Shown.{shown_by};
ghost use Rattle.command_files.specs.Outcome.{HasStep, ReadsInputs, ReadsFailures, ReadsPredictions};

use crate::kind::{FailureFiles, Matrices, Plans, Topologies};
use command_frame::{Fault, value_in};
use failure::Failures;
use plan::Experiment;
use std::alloc::Global;
use te_model::{Items, Memory, Network};
use te_ports::Depot;
use traffic_matrix::{Series, Traffic};

/// A plan, and the network and the series of the files that it names.
#[derive(Drop)]
pub struct Inputs {
    pub plan: Experiment,
    pub network: Network,
    pub series: Series,
}

/// What the plan in the file of this name says, the network of its topology and the series of its matrices, which has the step
/// where one is given. The topology and the matrices are read only where no file before them is refused.
///
/// `Refused` comes only for what reads of the files gave, and `Read` only where a read of one of them failed in the call.
pub fn inputs_in<D: Depot>(
    alloc: Global,
    depot: &mut D,
    plan: &str,
    step: Option<u32>,
) -> Result<Inputs, Fault>
    ensures in_range { IfOk result (λ inputs. InRange inputs.plan) }
    ensures formed { IfOk result (λ inputs. IsTrue (is_well_formed inputs.network)) }
    ensures links { IfOk result (λ inputs. 1 ≤ link_count inputs.network) }
    ensures series { IfOk result (λ inputs. IsSeries (node_count inputs.network) inputs.series) }
    ensures step { IfOk result (λ inputs. HasStep step inputs.series) }
    ensures reads { ReadsInputs step plan.now (shown_by D.content D.gave D.faults depot.old) (shown_by D.content D.gave D.faults depot.new) result }
{
    let named = value_in(alloc, depot, &Plans, plan)?;
    let topology = named.topology.as_str();
    let network = value_in(alloc, depot, &Topologies, topology)?;
    let matrices = named.matrices.as_str();
    let of = Matrices {
        network: &network,
        step,
    };
    let series = value_in(alloc, depot, &of, matrices)?;
    Ok(Inputs {
        plan: named,
        network,
        series,
    })
}

/// The predicted matrices of the file that the plan names for them, if it names one.
///
/// `Refused` comes only for what reads of the file gave, and `Read` only where a read of it failed in the call.
pub fn predictions_in<D: Depot>(
    alloc: Global,
    depot: &mut D,
    inputs: &Inputs,
) -> Result<Option<Series>, Fault>
    requires network { IsTrue (is_well_formed inputs.now.network) }
    ensures predictions { IfOk result (λ predictions. IfSome predictions (IsSeries (node_count inputs.now.network))) }
    ensures reads { ReadsPredictions inputs.now.network inputs.now.plan.predictions
        (shown_by D.content D.gave D.faults depot.old) (shown_by D.content D.gave D.faults depot.new) result }
{
    let of = Matrices {
        network: &inputs.network,
        step: None,
    };
    match &inputs.plan.predictions {
        None => Ok(None),
        Some(file) => {
            let predictions = value_in(alloc, depot, &of, file.as_str())?;
            Ok(Some(predictions))
        }
    }
}

/// The traffic of these matrices and of their predictions, if there are some. `Memory` comes where memory is wanting.
pub fn traffic_of(
    alloc: Global,
    network: &Network,
    series: Series,
    predictions: Option<Series>,
) -> Result<Traffic, Memory>
    requires network { IsTrue (is_well_formed network.now) }
    requires series { IsSeries (node_count network.now) series }
    requires predictions { IfSome predictions (IsSeries (node_count network.now)) }
    ensures traffic { IfOk result (λ t. t ≡ traffic_of (node_count network.now) series predictions) }
    ensures in_range { IfOk result (IsTraffic (node_count network.now)) }
    ensures steps { IfOk result (λ t. length t.sent.steps ≡ length series.steps) }
{
    let nodes = network.names.as_slice().len();
    Traffic::of(alloc, nodes, series, predictions)
}

/// The outages of the failure file that the plan names, of the links of its network in the steps of its series. A plan that
/// names none has none.
///
/// `Refused` comes only for what reads of the file gave, and `Read` only where a read of it failed in the call.
pub fn outages_in<D: Depot>(
    alloc: Global,
    depot: &mut D,
    inputs: &Inputs,
) -> Result<Failures, Fault>
    requires network { IsTrue (is_well_formed inputs.now.network) }
    requires series { IsSeries (node_count inputs.now.network) inputs.now.series }
    ensures reads { ReadsFailures inputs.now.network inputs.now.series inputs.now.plan.failures
        (shown_by D.content D.gave D.faults depot.old) (shown_by D.content D.gave D.faults depot.new) result }
{
    let kind = FailureFiles {
        network: &inputs.network,
        series: &inputs.series,
    };
    match &inputs.plan.failures {
        None => Ok(Failures {
            list: Items::new(Vec::new(alloc)),
        }),
        Some(file) => value_in(alloc, depot, &kind, file.as_str()),
    }
}
