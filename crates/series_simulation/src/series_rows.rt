//! The rows of a scheme over a series of matrices, one for each step.
ghost use Rattle.std.specs.Prelude.{◌≡◌, ◌<◌, ◌≤◌, ℕ, IfOk, IsTrue, filter, length};
ghost use Rattle.te_model.specs.Network.{is_well_formed, link_count, node_count};
ghost use Rattle.local_recovery.specs.Rates.{IsRates};
ghost use Rattle.traffic_matrix.specs.Traffic.{IsTraffic, predicted_in, sent_in};
ghost use Rattle.series_simulation.specs.Connected.{TellsPaths, connects};
ghost use Rattle.series_simulation.specs.Rows.{AreStepRows, IsStep, step_row_at};
ghost use Rattle.series_simulation.specs.Simulation.{IsConservedStep};

use crate::preparation::{Preparation, prepare_connected};
use crate::prepared_step::step_keeping;
use crate::step_input::StepInput;
use crate::step_row::{SimulatedStep, StepRow};
use failure::Failures;
use plan::Recovery;
use scheme::Adaptive;
use std::alloc::Global;
use te_model::{Items, Memory, Network};
use traffic_matrix::Traffic;

/// A step in which the marked links have failed, by what was prepared for the network.
///
/// The scheme routes the matrix of the pairs that have a path, the predicted one where matrices are predicted, and what is left of its
/// routing takes the demands that are sent; the other pairs lose theirs for want of a path. Under `Reroute`, where a link has failed, the
/// scheme is prepared anew on the network without its failed links, for the pairs that have a path there. Under `Adapt`, where a link has
/// failed, a scheme whose plan keeps a set of paths chooses its rates anew over those that stand, for the pairs that keep one. `failed` has
/// one mark for each link. `Memory` comes where memory is wanting.
pub fn step_of<S: Adaptive>(
    alloc: Global,
    scheme: &S,
    net: &Network,
    prepared: &Preparation<S::Plan>,
    traffic: &Traffic,
    failed: &[bool],
    recovery: Recovery,
    step: u32,
) -> Result<SimulatedStep, Memory>
    requires network { IsTrue (is_well_formed net.now) }
    requires traffic { IsTraffic (node_count net.now) traffic.now }
    requires marks { length failed.now ≡ link_count net.now }
    requires paths { S.Scheme.PATHS ≤ 4096 }
    requires tells { TellsPaths net.now (connects prepared.now.reach) }
    requires planned { S.Scheme.is_plan scheme.now net.now (filter (connects prepared.now.reach) traffic.now.sent.pairs.list) prepared.now.plan }
    requires step { step < length traffic.now.sent.steps }
    ensures number { IfOk result (λ s. s.row.step ≡ step) }
    ensures step { IfOk result (λ s. IsStep S.Scheme.PATHS (S.Scheme.is_plan scheme.now) (S.Scheme.relates scheme.now) S.Note.low
        (S.path_set_routes scheme.now) (S.adapts scheme.now) net.now failed.now
        traffic.now.sent.pairs.list (predicted_in traffic.now step) (sent_in traffic.now step) recovery prepared.now.plan s.rates.routes s.row) }
    ensures rates { IfOk result (λ s. IsRates net.now s.rates.routes) }
    ensures conserved { IfOk result (λ s. IsConservedStep (sent_in traffic.now step) s.row.result) }
{
    let input = StepInput {
        prepared,
        traffic,
        failed,
        recovery,
        step,
    };
    let mut kept = Vec::new(alloc);
    let simulated = step_keeping(alloc, scheme, net, &input, &mut kept, &[])?;
    Ok(simulated)
}

/// One row for each step of the series, by a scheme whose pairs have at most 4,096 paths each.
///
/// The scheme is prepared for the declared pairs that have a path in the network, and each row is that of `step_of`. The only error is
/// `Memory`, where memory is wanting. An outage of a link that the network does not have changes nothing. (After YATES; Kumar and
/// others, 2018.)
pub fn drive<S: Adaptive>(
    alloc: Global,
    scheme: &S,
    net: &Network,
    traffic: &Traffic,
    failures: &Failures,
    recovery: Recovery,
) -> Result<Items<StepRow>, Memory>
    requires network { IsTrue (is_well_formed net.now) }
    requires traffic { IsTraffic (node_count net.now) traffic.now }
    requires paths { S.Scheme.PATHS ≤ 4096 }
    ensures rows { IfOk result (AreStepRows S.Scheme.PATHS (S.Scheme.is_plan scheme.now) (S.Scheme.relates scheme.now) S.Note.low
        (S.path_set_routes scheme.now) (S.adapts scheme.now) net.now traffic.now failures.now recovery) }
    ensures conserved { IfOk result (λ rows. (k : ℕ) → k < length rows → IsConservedStep (sent_in traffic.now k) (step_row_at rows k).result) }
{
    let prepared = prepare_connected(alloc, scheme, net, &traffic.sent.pairs)?;
    let steps = traffic.sent.steps.as_slice().len();
    let marks = failures.series(alloc, net, steps)?;
    let mut rows = Vec::new(alloc);
    for step in 0..steps {
        let failed = marks[step].as_slice();
        let simulated = step_of(
            alloc,
            scheme,
            net,
            &prepared,
            traffic,
            failed,
            recovery,
            step as u32,
        )?;
        rows.push(simulated.row)?;
    }
    Ok(Items::new(rows))
}
