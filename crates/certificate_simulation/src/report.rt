//! The report of a certificate's routing over a series of matrices.
ghost use Rattle.std.specs.Prelude.{◌≡◌, ◌++◌, codes, IfOk, IsTrue, List};
ghost use Rattle.te_model.specs.Network.{is_well_formed, node_count};
ghost use Rattle.te_model.specs.Validity.{IsValidHead};
ghost use Rattle.routing.specs.Routes.{HasFewPaths, IsRoutingOf};
ghost use Rattle.local_recovery.specs.Rates.{pairs_of};
ghost use Rattle.traffic_matrix.specs.Limits.{IsSeries};
ghost use Rattle.traffic_matrix.specs.Outside.{AreAmong};
ghost use Rattle.series_simulation.specs.declared.step_row.StepRow.{StepRow};
ghost use Rattle.series_simulation.specs.KeptRouting.{AreKeptRows};
ghost use Rattle.experiment.specs.Text.{scheme_lines};
ghost use Rattle.certificate_simulation.specs.Report.{IsCertificateReport, IsReportBy, routed_series};

use crate::pairs::routed_pairs;
use experiment::{Figures, Recovery, add_row, print_total, report_header};
use failure::Failures;
use routing::Routing;
use series_simulation::kept_row;
use std::alloc::Global;
use te_model::{Head, Memory, Network};
use traffic_matrix::{Series, with_pairs};

// The lines of the routing, one for each step of a series of all its pairs, and the total.
fn lines_by(
    alloc: Global,
    network: &Network,
    routing: &Routing,
    whole: &Series,
    failures: &Failures,
    recovery: Recovery,
) -> Result<Vec<u8>, Memory>
    requires network { IsTrue (is_well_formed network.now) }
    requires whole { IsSeries (node_count network.now) whole.now }
    requires routing { IsRoutingOf network.now whole.now.pairs.list routing.now.routes }
    requires few { HasFewPaths 4096 routing.now.routes }
    ensures { IfOk result (λ text. (rows : List StepRow)
        × AreKeptRows routing.now.routes network.now whole.now failures.now recovery rows
        × (text.items ≡ scheme_lines (codes "certificate") rows)) }
{
    let steps = whole.steps.as_slice().len();
    let marks = failures.series(alloc, network, steps)?;
    let word = "certificate";
    let mut text = Vec::new(alloc);
    let mut total = Figures::none();
    for step in 0..steps {
        let failed = marks[step].as_slice();
        let row = kept_row(
            alloc,
            network,
            routing,
            whole,
            failed,
            recovery,
            step as u32,
        )?;
        add_row(&mut text, &mut total, word, &row)?;
    }
    print_total(&mut text, word, &total)?;
    Ok(text)
}

// The report of the routing over a series of some of its pairs.
fn report_by(
    alloc: Global,
    network: &Network,
    routing: &Routing,
    series: &Series,
    failures: &Failures,
    recovery: Recovery,
) -> Result<Vec<u8>, Memory>
    requires network { IsTrue (is_well_formed network.now) }
    requires routing { IsRoutingOf network.now (pairs_of routing.now.routes) routing.now.routes }
    requires few { HasFewPaths 4096 routing.now.routes }
    requires pairs { IsSeries (node_count network.now) (routed_series routing.now.routes series.now) }
    requires series { IsSeries (node_count network.now) series.now }
    requires among { AreAmong series.now.pairs.list (pairs_of routing.now.routes) }
    ensures { IfOk result (λ text. IsReportBy routing.now.routes network.now series.now failures.now recovery text.items) }
{
    let routes = routing.routes.as_slice();
    let pairs = routed_pairs(alloc, routes)?;
    let declared = pairs.as_slice();
    let whole = with_pairs(alloc, declared, series)?;
    let lines = lines_by(alloc, network, routing, &whole, failures, recovery)?;
    let mut text = Vec::from_slice(alloc, report_header().as_bytes())?;
    text.extend_from_slice(lines.as_slice())?;
    Ok(text)
}

/// The report of the routing of a certificate's head over a series of some of its pairs: the lines of the one scheme `certificate`, one
/// for each step, and the total.
///
/// The routing is that of the head for every matrix, and no lower bound is stated. A pair of the head that the series does not have
/// demands nothing. What is left of the routing where links have failed is as the recovery says, and `Reroute` and `Adapt` are as `Scale`. An outage of
/// a link that the network does not have changes nothing. The only error is `Memory`, where memory is wanting.
pub fn certificate_report(
    alloc: Global,
    head: Head,
    series: &Series,
    failures: &Failures,
    recovery: Recovery,
) -> Result<Vec<u8>, Memory>
    requires head { IsValidHead head }
    requires series { IsSeries (node_count head.network) series.now }
    requires among { AreAmong series.now.pairs.list (pairs_of head.routes) }
    ensures { IfOk result (λ text. IsCertificateReport head series.now failures.now recovery text.items) }
{
    let Head {
        format: _,
        network,
        routes,
        set: _,
        ratio: _,
    } = head;
    let routing = Routing { routes };
    report_by(alloc, &network, &routing, series, failures, recovery)
}
