//! The row of a step that is given what another step is given.
ghost use Rattle.std.specs.Prelude.{◌≡◌, ◌↔◌, ◌<◌, ◌≤◌, ℕ, [], All, IfOk, IsTrue, filter, length, slice_index_or};
ghost use Rattle.std.specs.Option.{IfSome, is_some};
ghost use Rattle.te_model.specs.Network.{is_well_formed, link_count, node_count};
ghost use Rattle.te_model.specs.Pairs.{AreDemands};
ghost use Rattle.traffic_matrix.specs.Traffic.{IsTraffic, demands_in, predicted_in};
ghost use Rattle.series_simulation.specs.Connected.{TellsPaths, connects};
ghost use Rattle.series_simulation.specs.Repeated.{AreAlike, IsRowIn};
ghost use Rattle.series_simulation.specs.SurvivorPreparation.{AreKept};

use crate::preparation::Preparation;
use crate::prepared_step::step_keeping;
use crate::step_input::StepInput;
use crate::step_matrices::matrix_of;
use crate::step_row::StepRow;
use crate::survivor_preparation::SurvivorPreparation;
use plan::Recovery;
use scheme::Adaptive;
use std::alloc::Global;
use te_model::{Items, Memory, Network};
use traffic_matrix::{Series, Traffic};

/// Whether the matrices of two steps are the same.
fn same_demands(series: &Series, one: u32, other: u32) -> bool
    requires one { one < length series.now.steps }
    requires other { other < length series.now.steps }
    requires demands { All (λ m. AreDemands (length series.now.pairs.list) m.demand) series.now.steps }
    ensures { IsTrue result ↔ (demands_in series.now one ≡ demands_in series.now other) }
{
    let first = matrix_of(series, one);
    let second = matrix_of(series, other);
    first.demand == second.demand
}

/// Whether what is predicted for two steps is the same.
fn same_predictions(traffic: &Traffic, one: u32, other: u32) -> bool
    requires traffic { (n : ℕ) × IsTraffic n traffic.now }
    requires one { one < length traffic.now.sent.steps }
    requires other { other < length traffic.now.sent.steps }
    ensures { IsTrue result ↔ (predicted_in traffic.now one ≡ predicted_in traffic.now other) }
{
    match &traffic.predicted {
        Some(predicted) => same_demands(predicted, one, other),
        None => true,
    }
}

/// Whether two steps are given the same: demands, predictions and failed links.
fn are_alike(traffic: &Traffic, marks: &[Items<bool>], one: u32, other: u32) -> bool
    requires traffic { (n : ℕ) × IsTraffic n traffic.now }
    requires count { length marks.now ≡ length traffic.now.sent.steps }
    requires one { one < length traffic.now.sent.steps }
    requires other { other < length traffic.now.sent.steps }
    ensures { IsTrue result ↔ AreAlike marks.now traffic.now one other }
{
    let failures = marks[one as usize] == marks[other as usize];
    let sent = same_demands(&traffic.sent, one, other);
    let predicted = same_predictions(traffic, one, other);
    failures & (sent & predicted)
}

/// The row with the number of the step, if its own step and this one are given the same.
fn repeated_row(
    traffic: &Traffic,
    marks: &[Items<bool>],
    row: StepRow,
    step: u32,
) -> Option<StepRow>
    requires traffic { (n : ℕ) × IsTraffic n traffic.now }
    requires count { length marks.now ≡ length traffic.now.sent.steps }
    requires row { row.step < length traffic.now.sent.steps }
    requires step { step < length traffic.now.sent.steps }
    ensures row { IfSome result (λ r. r ≡ record { step = step; result = row.result; peak = row.peak; parts = row.parts; low = row.low }) }
    ensures alike { (IsTrue (is_some result)) ↔ AreAlike marks.now traffic.now row.step step }
{
    if are_alike(traffic, marks, row.step, step) {
        Some(StepRow {
            step,
            result: row.result,
            peak: row.peak,
            parts: row.parts,
            low: row.low,
        })
    } else {
        None
    }
}

/// The row of a step, as that of `step_of`.
///
/// Where the last row is of a step that is given the same demands, predictions and failed links, it is this step's row too, but for the
/// number. Otherwise the step is simulated; where it is routed anew, by what is kept for its own failed links, and what is prepared for
/// them is kept for later steps: while one of them needs it, and for `KEPT_SETS` sets of failed links at most, of which the one that is
/// needed last goes. `marks` has for each step of the series one mark for each link, set where the link has failed, and `last` is a row of
/// a step of the series by the same plan, marks and recovery. `Memory` comes where memory is wanting.
pub fn row_after<S: Adaptive>(
    alloc: Global,
    scheme: &S,
    net: &Network,
    prepared: &Preparation<S::Plan>,
    traffic: &Traffic,
    marks: &[Items<bool>],
    recovery: Recovery,
    step: u32,
    last: Option<StepRow>,
    kept: &mut Vec<SurvivorPreparation<S::Plan>>,
) -> Result<StepRow, Memory>
    requires network { IsTrue (is_well_formed net.now) }
    requires traffic { IsTraffic (node_count net.now) traffic.now }
    requires count { length marks.now ≡ length traffic.now.sent.steps }
    requires marks { All (λ m. length m ≡ link_count net.now) marks.now }
    requires paths { S.Scheme.PATHS ≤ 4096 }
    requires tells { TellsPaths net.now (connects prepared.now.reach) }
    requires planned { S.Scheme.is_plan scheme.now net.now (filter (connects prepared.now.reach) traffic.now.sent.pairs.list) prepared.now.plan }
    requires step { step < length traffic.now.sent.steps }
    requires last { IfSome last (IsRowIn S.Scheme.PATHS (S.Scheme.is_plan scheme.now) (S.Scheme.relates scheme.now) S.Note.low
        (S.path_set_routes scheme.now) (S.adapts scheme.now) net.now marks.now traffic.now recovery prepared.now.plan) }
    requires kept { AreKept (S.Scheme.is_plan scheme.now) net.now traffic.now.sent.pairs.list kept.old.items }
    ensures step { IfOk result (λ r. r.step ≡ step) }
    ensures row { IfOk result (IsRowIn S.Scheme.PATHS (S.Scheme.is_plan scheme.now) (S.Scheme.relates scheme.now) S.Note.low
        (S.path_set_routes scheme.now) (S.adapts scheme.now) net.now marks.now traffic.now recovery prepared.now.plan) }
    ensures kept { IfOk result (λ r. AreKept (S.Scheme.is_plan scheme.now) net.now traffic.now.sent.pairs.list kept.new.items) }
{
    let repeated = match last {
        Some(row) => repeated_row(traffic, marks, row, step),
        None => None,
    };
    match repeated {
        Some(row) => Ok(row),
        None => {
            let place = step as usize;
            let input = StepInput {
                prepared,
                traffic,
                failed: marks[place].as_slice(),
                recovery,
                step,
            };
            let simulated = step_keeping(alloc, scheme, net, &input, kept, &marks[place + 1..])?;
            Ok(simulated.row)
        }
    }
}
