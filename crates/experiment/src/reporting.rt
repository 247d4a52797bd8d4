//! The report of a plan's schemes, each driven through the series.
ghost use Rattle.std.specs.Prelude.{IfOk, IsTrue};
ghost use Rattle.te_model.specs.Network.{is_well_formed, node_count};
ghost use Rattle.traffic_matrix.specs.Traffic.{IsTraffic};
ghost use Rattle.plan.specs.Plan.{InRange};
ghost use Rattle.experiment.specs.Report.{IsReport};

use crate::lines::report_header;
use crate::report_input::ReportInput;
use crate::scheme_texts::{shared_texts, text_place};
use failure::Failures;
use plan::Experiment;
use std::alloc::Global;
use te_model::{Memory, Network};
use traffic_matrix::Traffic;

/// The report of the plan's schemes, in order: one line for each step, and the total.
///
/// The schemes are driven through the series with the plan's recovery, as `drive` says, each once, however often the plan names it. The
/// only error is `Memory`, where memory is wanting. An outage of a link that the network does not have changes nothing. (After YATES;
/// Kumar and others, 2018.)
pub fn report(
    alloc: Global,
    plan: &Experiment,
    network: &Network,
    traffic: &Traffic,
    failures: &Failures,
) -> Result<Vec<u8>, Memory>
    requires plan { InRange plan.now }
    requires network { IsTrue (is_well_formed network.now) }
    requires traffic { IsTraffic (node_count network.now) traffic.now }
    ensures { IfOk result (λ text. IsReport plan.now network.now traffic.now failures.now text.items) }
{
    let input = ReportInput {
        plan,
        network,
        traffic,
        failures,
    };
    let mut texts = shared_texts(alloc, &input)?;
    let mut text = Vec::from_slice(alloc, report_header().as_bytes())?;
    for name in plan.schemes.as_slice() {
        let place = text_place(alloc, &mut texts, *name, &input)?;
        text.extend_from_slice(texts[place].text.as_slice())?;
    }
    Ok(text)
}
