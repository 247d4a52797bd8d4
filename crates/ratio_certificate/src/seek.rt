//! The search for weights of a link that need little: sweeps, in each of which the worst matrix takes least ways, and the weights
//! of the links that it uses most grow.
ghost use Rattle.std.specs.Prelude.{◌≡◌, ◌^◌, ◌<◌, ◌≤◌, IfOk, OnOk, length};
ghost use Rattle.te_model.specs.Network.{link_count};
ghost use Rattle.centred_steps.specs.Loads.{AreLoadsWithin};
ghost use Rattle.centred_steps.specs.Ways.{AreLastLinks};
ghost use Rattle.centred_steps.specs.Weights.{AreWeightsUpTo};
ghost use Rattle.ratio_certificate.specs.Problems.{IsLinkOf, IsMetricOf, IsProblem, IsWeightingOf};
ghost use Rattle.ratio_certificate.specs.Searching.{IsSearchOf};
ghost use Rattle.ratio_certificate.specs.Weighting.{AreWeights};

use crate::problem::Problem;
use crate::response::{Pricing, Ways, no_ways};
use crate::rounds::first_metric;
use crate::weighting::{Weighting, keep_lesser, weighting_of};
use best_blocks::{Metric, Scale, SharedLink, metric_of, metric_with};
use centred_steps::{has_load, step_weights};
use shortest_path::{Direction, Searches};
use std::alloc::Global;
use te_model::Memory;

/// How many stages of sweeps there are. The steps of each are half as great as those of the one before.
const STAGES: usize = 8;

/// How many sweeps a stage has besides one for every second link.
const SWEEPS: usize = 60;

/// The most sweeps of a stage: on larger networks more of them gain little for their time.
const MAX_SWEEPS: usize = 256;

/// The parts of a step in the last stage.
const MAX_PARTS: u64 = 128;

/// Where a search stands: the weights of the next sweep, by what they are scaled, and the best ones so far.
#[derive(Drop)]
pub struct Search {
    pub metric: Metric,
    pub scale: Scale,
    pub best: Weighting,
    /// Searches along links in the network.
    pub searches: Searches,
}

/// A search at its start, by the metric of its first weights.
fn start_by(
    alloc: Global,
    problem: &Problem,
    shared: &SharedLink,
    metric: Metric,
) -> Result<Search, Memory>
    requires problem { IsProblem problem.now }
    requires shared { IsLinkOf problem.now shared.now }
    requires metric { IsMetricOf problem.now shared.now metric }
    requires weights { AreWeightsUpTo (2 ^ 27) metric.weights }
    ensures { IfOk result (IsSearchOf problem.now shared.now) }
{
    let best = weighting_of(alloc, problem, shared, &metric)?;
    let scale = Scale {
        a: best.a,
        b: best.b,
    };
    let searches = Searches::with_orders(alloc, problem.net, Direction::Forward)?;
    Ok(Search {
        metric,
        scale,
        best,
        searches,
    })
}

/// A search at its start, where each weight is 2^20.
pub fn start(alloc: Global, problem: &Problem, shared: &SharedLink) -> Result<Search, Memory>
    requires problem { IsProblem problem.now }
    requires shared { IsLinkOf problem.now shared.now }
    ensures { IfOk result (IsSearchOf problem.now shared.now) }
{
    let metric = first_metric(alloc, problem, shared)?;
    start_by(alloc, problem, shared, metric)
}

/// Half of the weight, rounded up.
fn half_of(weight: u64) -> u64
    requires { (1 ≤ weight) × (weight ≤ 2 ^ 28) }
    ensures { (1 ≤ result) × (result ≤ 2 ^ 27) }
{
    (weight + 1) / 2
}

/// Half of each of the weights, rounded up: weights that steps may move, for which a link needs nearly the same.
pub fn halves_of(alloc: Global, weights: &[u64]) -> Result<Vec<u64>, Memory>
    requires weights { AreWeightsUpTo (2 ^ 28) weights.now }
    ensures count { IfOk result (λ w. length w.items ≡ length weights.now) }
    ensures weights { IfOk result (λ w. AreWeightsUpTo (2 ^ 27) w.items) }
{
    let mut halves = Vec::with_capacity(alloc, weights.len())?;
    for h in 0..weights.len() {
        halves.push(half_of(weights[h]))?;
    }
    Ok(halves)
}

/// A search at its start, from these weights on.
pub fn start_from(
    alloc: Global,
    problem: &Problem,
    shared: &SharedLink,
    weights: Vec<u64>,
) -> Result<Search, Memory>
    requires problem { IsProblem problem.now }
    requires shared { IsLinkOf problem.now shared.now }
    requires count { length weights.items ≡ link_count problem.now.net.now }
    requires weights { AreWeightsUpTo (2 ^ 27) weights.items }
    ensures { IfOk result (IsSearchOf problem.now shared.now) }
{
    let marks = shared.marks.as_slice();
    let metric = metric_of(alloc, problem.net, problem.routing, marks, weights)?;
    start_by(alloc, problem, shared, metric)
}

/// Moves the search to these weights.
pub fn move_to(
    alloc: Global,
    problem: &Problem,
    shared: &SharedLink,
    search: &mut Search,
    weights: Vec<u64>,
) -> Result<(), Memory>
    requires problem { IsProblem problem.now }
    requires shared { IsLinkOf problem.now shared.now }
    requires search { IsSearchOf problem.now shared.now search.old }
    requires count { length weights.items ≡ link_count problem.now.net.now }
    requires weights { AreWeightsUpTo (2 ^ 27) weights.items }
    ensures { OnOk result (IsSearchOf problem.now shared.now search.new) }
{
    let marks = shared.marks.as_slice();
    let searches = &mut search.searches;
    let metric = metric_with(
        alloc,
        problem.net,
        problem.routing,
        marks,
        searches,
        weights,
    )?;
    let found = weighting_of(alloc, problem, shared, &metric)?;
    search.metric = metric;
    search.scale = Scale {
        a: found.a,
        b: found.b,
    };
    keep_lesser(&mut search.best, found);
    Ok(())
}

/// Moves the weights of the search by a step after a sweep, whose loads these are.
fn advance(
    alloc: Global,
    problem: &Problem,
    shared: &SharedLink,
    search: &mut Search,
    loads: &[u128],
    parts: u64,
) -> Result<(), Memory>
    requires problem { IsProblem problem.now }
    requires shared { IsLinkOf problem.now shared.now }
    requires search { IsSearchOf problem.now shared.now search.old }
    requires loads { AreLoadsWithin problem.now.net.now loads.now }
    requires parts { (1 ≤ parts) × (parts ≤ 128) }
    ensures { OnOk result (IsSearchOf problem.now shared.now search.new) }
{
    let mut weights = Vec::from_slice(alloc, search.metric.weights.as_slice())?;
    step_weights(problem.net, &mut weights, loads, parts);
    move_to(alloc, problem, shared, search, weights)
}

/// The parts of the next step: twice as many where a stage ends.
fn next_parts(parts: u64, sweep: usize, sweeps: usize) -> u64
    requires parts { (1 ≤ parts) × (parts ≤ 128) }
    requires sweep { sweep < 2 ^ 32 }
    requires sweeps { 1 ≤ sweeps }
    ensures { (1 ≤ result) × (result ≤ 128) }
{
    if (sweep + 1) % sweeps == 0 {
        (2 * parts).min(MAX_PARTS)
    } else {
        parts
    }
}

/// Writes the loads of the worst matrix for the weights of the search, which is the nearer the greater the parts of a step are.
fn respond_to(
    problem: &Problem,
    shared: &SharedLink,
    search: &Search,
    parts: u64,
    ways: &mut Ways,
    loads: &mut [u128],
)
    requires problem { IsProblem problem.now }
    requires shared { IsLinkOf problem.now shared.now }
    requires search { IsSearchOf problem.now shared.now search.now }
    requires parts { (1 ≤ parts) × (parts ≤ 128) }
    requires ways { AreLastLinks problem.now.net.now ways.old.lasts.items }
    requires loads { AreLoadsWithin problem.now.net.now loads.old }
    ensures ways { AreLastLinks problem.now.net.now ways.new.lasts.items }
    ensures loads { AreLoadsWithin problem.now.net.now loads.new }
{
    let pricing = Pricing {
        problem: *problem,
        shared,
        metric: &search.metric,
        scale: search.scale,
        near: 2 * u128::from(parts),
    };
    pricing.respond(ways, loads);
}

/// Goes on with the search by so many stages of sweeps, the first one by steps of so many parts, until the floor is reached or no
/// link has a load. `ways` and `loads` are room for what each sweep finds.
fn make_sweeps(
    alloc: Global,
    problem: &Problem,
    shared: &SharedLink,
    stages: usize,
    first_parts: u64,
    floor: u128,
    search: &mut Search,
    ways: &mut Ways,
    loads: &mut [u128],
) -> Result<(), Memory>
    requires problem { IsProblem problem.now }
    requires shared { IsLinkOf problem.now shared.now }
    requires stages { stages ≤ 8 }
    requires parts { (1 ≤ first_parts) × (first_parts ≤ 128) }
    requires search { IsSearchOf problem.now shared.now search.old }
    requires ways { AreLastLinks problem.now.net.now ways.old.lasts.items }
    requires loads { AreLoadsWithin problem.now.net.now loads.old }
    ensures { OnOk result (IsSearchOf problem.now shared.now search.new) }
{
    let sweeps = (SWEEPS + loads.len() / 2).min(MAX_SWEEPS);
    let mut parts = first_parts;
    for i in 0..stages * sweeps {
        respond_to(problem, shared, search, parts, ways, loads);
        if search.best.need <= floor || !has_load(loads) {
            return Ok(());
        }
        advance(alloc, problem, shared, search, loads, parts)?;
        parts = next_parts(parts, i, sweeps);
    }
    Ok(())
}

/// Goes on with the search to its end, by so many stages of sweeps, the first one by steps of so many parts.
fn finish(
    alloc: Global,
    problem: &Problem,
    shared: &SharedLink,
    stages: usize,
    first_parts: u64,
    floor: u128,
    search: &mut Search,
) -> Result<(), Memory>
    requires problem { IsProblem problem.now }
    requires shared { IsLinkOf problem.now shared.now }
    requires stages { stages ≤ 8 }
    requires parts { (1 ≤ first_parts) × (first_parts ≤ 128) }
    requires search { IsSearchOf problem.now shared.now search.old }
    ensures { OnOk result (IsSearchOf problem.now shared.now search.new) }
{
    let mut loads = vec![in alloc; 0; problem.net.links.as_slice().len()]?;
    let mut ways = no_ways(alloc, problem.net)?;
    make_sweeps(
        alloc,
        problem,
        shared,
        stages,
        first_parts,
        floor,
        search,
        &mut ways,
        &mut loads,
    )
}

/// Weights of the link that need little, sought by stages of sweeps whose steps grow ever smaller. The search ends early where
/// it reaches the floor, and where no link has a load.
///
/// Whatever it finds, there is one weight for each link, from 1 to 2^28. `Memory` comes where memory is wanting.
pub fn seek(
    alloc: Global,
    problem: &Problem,
    shared: &SharedLink,
    floor: u128,
) -> Result<Weighting, Memory>
    requires problem { IsProblem problem.now }
    requires shared { IsLinkOf problem.now shared.now }
    ensures link { IfOk result (λ w. w.link ≡ shared.now.link) }
    ensures weighting { IfOk result (IsWeightingOf problem.now) }
{
    let mut search = start(alloc, problem, shared)?;
    finish(alloc, problem, shared, STAGES, 1, floor, &mut search)?;
    Ok(search.best)
}

/// Weights of the link that need little, sought from these on by one stage of sweeps of the smallest steps. The search ends early
/// where `seek` does.
///
/// Whatever it finds, there is one weight for each link, from 1 to 2^28. `Memory` comes where memory is wanting.
pub fn seek_from(
    alloc: Global,
    problem: &Problem,
    shared: &SharedLink,
    weights: &[u64],
    floor: u128,
) -> Result<Weighting, Memory>
    requires problem { IsProblem problem.now }
    requires shared { IsLinkOf problem.now shared.now }
    requires weights { AreWeights problem.now.net.now weights.now }
    ensures link { IfOk result (λ w. w.link ≡ shared.now.link) }
    ensures weighting { IfOk result (IsWeightingOf problem.now) }
{
    let halves = halves_of(alloc, weights)?;
    let mut search = start_from(alloc, problem, shared, halves)?;
    finish(alloc, problem, shared, 1, MAX_PARTS, floor, &mut search)?;
    Ok(search.best)
}
