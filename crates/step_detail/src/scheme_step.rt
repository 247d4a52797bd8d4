//! One step of a scheme of a plan.
ghost use Rattle.std.specs.Prelude.{◌≡◌, ◌<◌, ◌≤◌, IfOk, IsTrue, length};
ghost use Rattle.te_model.specs.Network.{is_well_formed, link_count, node_count};
ghost use Rattle.failure.specs.Series.{marks_of};
ghost use Rattle.local_recovery.specs.Rates.{IsRates};
ghost use Rattle.traffic_matrix.specs.Traffic.{IsTraffic};
ghost use Rattle.plan.specs.Plan.{InRange};
ghost use Rattle.series_simulation.specs.Rows.{IsStepAt};
ghost use Rattle.step_detail.specs.Breakdown.{IsSchemeStep};

use ecmp_split::Ecmp;
use experiment::{Experiment, Recovery, SchemeName};
use failure::Failures;
use k_paths::Ksp;
use mcf_lengths::Mcf;
use racke_mix::Racke;
use robust_routing::Robust;
use scheme::{Adaptive, Spf};
use semi_oblivious::Semi;
use series_simulation::{SimulatedStep, prepare_connected, step_of};
use std::alloc::Global;
use te_model::{Memory, Network};
use traffic_matrix::Traffic;
use valiant_mix::Valiant;

/// The step of the scheme, which is prepared for the network.
fn step_by<S: Adaptive>(
    alloc: Global,
    scheme: &S,
    network: &Network,
    traffic: &Traffic,
    failures: &Failures,
    recovery: Recovery,
    step: u32,
) -> Result<SimulatedStep, Memory>
    requires network { IsTrue (is_well_formed network.now) }
    requires traffic { IsTraffic (node_count network.now) traffic.now }
    requires paths { S.Scheme.PATHS ≤ 4096 }
    requires step { step < length traffic.now.sent.steps }
    ensures step { IfOk result (IsStepAt S.Scheme.PATHS (S.Scheme.is_plan scheme.now) (S.Scheme.relates scheme.now) S.Note.low (S.path_set_routes scheme.now) (S.adapts scheme.now) network.now traffic.now failures.now recovery step) }
    ensures rates { IfOk result (λ s. IsRates network.now s.rates.routes) }
{
    let prepared = prepare_connected(alloc, scheme, network, &traffic.sent.pairs)?;
    let failed = failures.marks(alloc, network, step)?;
    let marks = failed.as_slice();
    let simulated = step_of(
        alloc, scheme, network, &prepared, traffic, marks, recovery, step,
    )?;
    Ok(simulated)
}

/// The step of the scheme of this name, with the plan's numbers and recovery: no other step is simulated. `Memory` comes where memory is
/// wanting.
pub fn scheme_step(
    alloc: Global,
    name: SchemeName,
    plan: &Experiment,
    network: &Network,
    traffic: &Traffic,
    failures: &Failures,
    step: u32,
) -> Result<SimulatedStep, Memory>
    requires plan { InRange plan.now }
    requires network { IsTrue (is_well_formed network.now) }
    requires traffic { IsTraffic (node_count network.now) traffic.now }
    requires step { step < length traffic.now.sent.steps }
    ensures step { IfOk result (IsSchemeStep name plan.now network.now traffic.now failures.now step) }
    ensures rates { IfOk result (λ s. IsRates network.now s.rates.routes) }
{
    let recovery = plan.recovery;
    let base = Racke {
        trees: plan.trees,
        seed: plan.seed,
    };
    match name {
        SchemeName::Spf => step_by(alloc, &Spf, network, traffic, failures, recovery, step),
        SchemeName::Ecmp => step_by(alloc, &Ecmp, network, traffic, failures, recovery, step),
        SchemeName::Ksp => {
            let scheme = Ksp { k: plan.k };
            step_by(alloc, &scheme, network, traffic, failures, recovery, step)
        }
        SchemeName::Mcf => step_by(alloc, &Mcf, network, traffic, failures, recovery, step),
        SchemeName::Racke => step_by(alloc, &base, network, traffic, failures, recovery, step),
        SchemeName::Smore => {
            let budget = plan.budget;
            let scheme = Semi { base, budget };
            step_by(alloc, &scheme, network, traffic, failures, recovery, step)
        }
        SchemeName::Valiant => step_by(alloc, &Valiant, network, traffic, failures, recovery, step),
        SchemeName::Robust => {
            let scheme = Robust { ways: plan.budget };
            step_by(alloc, &scheme, network, traffic, failures, recovery, step)
        }
    }
}
