//! A step of each scheme of a plan, broken down.
ghost use Rattle.std.specs.Prelude.{◌≡◌, ◌++◌, ◌<◌, All, IfOk, IsTrue, OnOk, length};
ghost use Rattle.te_model.specs.Network.{is_well_formed, link_count, node_count};
ghost use Rattle.te_model.specs.Pairs.{AreDemands, IsPairAmong};
ghost use Rattle.local_recovery.specs.Rates.{IsRates};
ghost use Rattle.traffic_matrix.specs.Traffic.{IsTraffic};
ghost use Rattle.plan.specs.Plan.{InRange};
ghost use Rattle.step_detail.specs.Breakdown.{IsBreakdown, lines_of};
ghost use Rattle.step_detail.specs.Pairs.{AreLeastCosts};
ghost use Rattle.step_detail.specs.declared.breakdown.Breakdown.TheVariants.{Pairs as ByPairs};

use crate::breakdown::Breakdown;
use crate::least_cost::least_costs;
use crate::link_use::print_links;
use crate::pair_result::print_pairs;
use crate::scheme_step::scheme_step;
use crate::weighted_path::print_paths;
use experiment::Experiment;
use failure::Failures;
use series_simulation::{SimulatedStep, matrix_of};
use std::alloc::Global;
use te_model::{Matrix, Memory, Network, Pair};
use traffic_matrix::Traffic;

/// The least costs of the pairs where the breakdown has them.
fn least_costs_of(
    alloc: Global,
    breakdown: Breakdown,
    network: &Network,
    pairs: &[Pair],
) -> Result<Vec<Option<u64>>, Memory>
    requires network { IsTrue (is_well_formed network.now) }
    requires pairs { All (IsPairAmong (node_count network.now)) pairs.now }
    ensures { IfOk result (λ least. breakdown ≡ ByPairs → AreLeastCosts network.now pairs.now least.items) }
{
    match breakdown {
        Breakdown::Links => Ok(Vec::new(alloc)),
        Breakdown::Pairs => least_costs(alloc, network, pairs),
        Breakdown::Paths => Ok(Vec::new(alloc)),
    }
}

/// Writes the lines of a scheme's step.
fn add_lines(
    alloc: Global,
    text: &mut Vec<u8>,
    breakdown: Breakdown,
    word: &str,
    network: &Network,
    failed: &[bool],
    matrix: &Matrix,
    least: &[Option<u64>],
    step: &SimulatedStep,
) -> Result<(), Memory>
    requires network { IsTrue (is_well_formed network.now) }
    requires marks { length failed.now ≡ link_count network.now }
    requires rates { IsRates network.now step.now.rates.routes }
    requires carried { length step.now.row.result.carried ≡ link_count network.now }
    requires results { length step.now.row.result.per_pair ≡ length step.now.rates.routes }
    requires demands { AreDemands (length step.now.rates.routes) matrix.now.demand }
    requires least { breakdown ≡ ByPairs → length least.now ≡ length step.now.rates.routes }
    ensures { OnOk result (text.new.items ≡ text.old.items ++ lines_of breakdown network.now failed.now matrix.now.demand least.now word.now step.now) }
{
    match breakdown {
        Breakdown::Links => print_links(alloc, text, word, network, failed, matrix, step),
        Breakdown::Pairs => print_pairs(alloc, text, word, network, least, step),
        Breakdown::Paths => print_paths(text, word, network, step),
    }
}

/// A step of each scheme of the plan, in order, broken down by links, by pairs or by paths, under a header.
///
/// The step is that of the plan's report, with the same routing, recovery and simulation, and no other is simulated; it is one of the
/// series. The only error is `Memory`, where memory is wanting.
pub fn breakdown_text(
    alloc: Global,
    breakdown: Breakdown,
    plan: &Experiment,
    network: &Network,
    traffic: &Traffic,
    failures: &Failures,
    step: u32,
) -> Result<Vec<u8>, Memory>
    requires plan { InRange plan.now }
    requires network { IsTrue (is_well_formed network.now) }
    requires traffic { IsTraffic (node_count network.now) traffic.now }
    requires step { step < length traffic.now.sent.steps }
    ensures { IfOk result (λ text. IsBreakdown breakdown plan.now network.now traffic.now failures.now step text.items) }
{
    let failed = failures.marks(alloc, network, step)?;
    let marks = failed.as_slice();
    let matrix = matrix_of(&traffic.sent, step);
    let pairs = traffic.sent.pairs.list.as_slice();
    let least = least_costs_of(alloc, breakdown, network, pairs)?;
    let costs = least.as_slice();
    let header = breakdown.header();
    let mut text = Vec::from_slice(alloc, header.as_bytes())?;
    for name in plan.schemes.as_slice() {
        let simulated = scheme_step(alloc, *name, plan, network, traffic, failures, step)?;
        let word = name.word();
        add_lines(
            alloc, &mut text, breakdown, word, network, marks, matrix, costs, &simulated,
        )?;
    }
    Ok(text)
}
