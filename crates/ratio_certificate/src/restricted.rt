//! The search for weights of a link for all matrices. Most of its sweeps search nothing: they go by the ways that searches have
//! shown for the dearest pairs, as in a restricted problem (column generation; Dantzig and Wolfe, 1960).
ghost use Rattle.std.specs.Prelude.{◌≡◌, ◌^◌, ◌<◌, ◌≤◌, IfOk, OnOk, length};
ghost use Rattle.centred_steps.specs.Loads.{AreLoadsWithin};
ghost use Rattle.centred_steps.specs.Ways.{AreLastLinks};
ghost use Rattle.ratio_certificate.specs.Problems.{IsLinkOf, IsProblem, IsWeightingOf};
ghost use Rattle.ratio_certificate.specs.Restricted.{AreWaysOf, IsRestrictedSearchOf};
ghost use Rattle.ratio_certificate.specs.Searching.{IsSearchOf};
ghost use Rattle.ratio_certificate.specs.Weighting.{AreWeights};

use crate::effort::effort_of;
use crate::problem::Problem;
use crate::response::{NO_NODE, Ways, no_ways, turn};
use crate::seek::{Search, halves_of, move_to, start, start_from};
use crate::weighting::Weighting;
use best_blocks::{Scale, SharedLink};
use centred_steps::{has_load, step_weights};
use kept_ways::{KeptWays, nearness};
use std::alloc::Global;
use te_model::{Memory, Network};

/// The most sweeps without a search.
const MOST_BETWEEN: usize = 23;

/// The parts of a step from which on a stage has all sweeps of its course: the stages of greater steps have half of them.
const WHOLE_STAGES: u64 = 4;

/// The most parts of a step.
const MAX_PARTS: u64 = 128;

/// The stages of a search: how many there are, how many sweeps each has, and the parts of a step in the first one.
#[derive(Clone, Copy)]
pub struct Course {
    pub stages: usize,
    pub sweeps: usize,
    pub parts: u64,
}

/// The course of a link that has not been searched.
const FIRST: Course = Course {
    stages: 7,
    sweeps: 60,
    parts: 1,
};

/// The course of a link that is searched once more, from its best weights on.
fn second_course(net: &Network) -> Course
    ensures { result.parts ≡ 4 }
{
    Course {
        stages: 6,
        sweeps: effort_of(net).second_sweeps,
        parts: 4,
    }
}

/// So many sweeps, whose steps have so many parts.
#[derive(Clone, Copy)]
pub struct Stage {
    pub sweeps: usize,
    pub parts: u64,
}

/// The stage of the course whose steps have so many parts.
fn stage_of(course: Course, parts: u64) -> Stage
    ensures { result.parts ≡ parts }
{
    let sweeps = if parts < WHOLE_STAGES {
        course.sweeps / 2
    } else {
        course.sweeps
    };
    Stage { sweeps, parts }
}

/// Where a search by kept ways stands.
#[derive(Drop)]
pub struct RestrictedSearch {
    /// The last weights by which rows were searched, and the best ones.
    pub search: Search,
    /// The weights of the next sweep.
    pub weights: Vec<u64>,
    /// The ways of the pairs that have a share.
    pub kept: KeptWays,
    /// The sweeps until the next search, and those between the last one and it.
    pub left: usize,
    pub between: usize,
}

/// Whether a share is dear enough for its pair to have its least way kept.
fn is_dear(share: u64, distance: u64, scale: Scale, parts: u64) -> bool
    requires share { share ≤ 1000000 }
    requires distance { distance ≤ 2 ^ 35 }
    requires scale { (scale.a ≤ 2 ^ 36) × (scale.b ≤ 2 ^ 36) }
    requires parts { (1 ≤ parts) × (parts ≤ 128) }
{
    let worth = u128::from(share) * u128::from(scale.b);
    let most = u128::from(scale.a) * u128::from(distance);
    nearness(worth, most, u128::from(parts / 4).max(2)) > 0
}

/// Keeps the least way of the pair at the place, if the pair is dear and its kept ways, of which the shortest is so long, are
/// longer. Whether it does so.
fn keep_way(
    alloc: Global,
    problem: &Problem,
    shared: &SharedLink,
    search: &Search,
    parts: u64,
    place: usize,
    shortest: u64,
    ways: &mut Ways,
    kept: &mut KeptWays,
) -> Result<bool, Memory>
    requires problem { IsProblem problem.now }
    requires shared { IsLinkOf problem.now shared.now }
    requires search { IsSearchOf problem.now shared.now search.now }
    requires parts { (1 ≤ parts) × (parts ≤ 128) }
    requires place { place < length shared.now.list }
    requires ways { AreLastLinks problem.now.net.now ways.old.lasts.items }
    requires kept { AreWaysOf problem.now.net.now shared.now kept.old }
    ensures ways { AreLastLinks problem.now.net.now ways.new.lasts.items }
    ensures kept { OnOk result (AreWaysOf problem.now.net.now shared.now kept.new) }
{
    let entry = shared.list.as_slice()[place];
    let distance = search.metric.distances.as_slice()[entry.pair as usize];
    if distance < shortest && is_dear(entry.share, distance, search.scale, parts) {
        let pair = problem.routing.routes.as_slice()[entry.pair as usize].pair;
        turn(problem.net, &search.metric, ways, pair.src);
        kept.keep(
            alloc,
            problem.net,
            &ways.lasts,
            pair.dst,
            place,
            entry.share,
            distance.max(1),
        )?;
        Ok(true)
    } else {
        Ok(false)
    }
}

/// Keeps the least ways of the dear pairs whose kept ways are all longer. Whether there are such pairs. `ways` is room for the
/// least ways from a node.
fn keep_ways(
    alloc: Global,
    problem: &Problem,
    shared: &SharedLink,
    search: &Search,
    parts: u64,
    ways: &mut Ways,
    kept: &mut KeptWays,
) -> Result<bool, Memory>
    requires problem { IsProblem problem.now }
    requires shared { IsLinkOf problem.now shared.now }
    requires search { IsSearchOf problem.now shared.now search.now }
    requires parts { (1 ≤ parts) × (parts ≤ 128) }
    requires ways { AreLastLinks problem.now.net.now ways.old.lasts.items }
    requires kept { AreWaysOf problem.now.net.now shared.now kept.old }
    ensures ways { AreLastLinks problem.now.net.now ways.new.lasts.items }
    ensures kept { OnOk result (AreWaysOf problem.now.net.now shared.now kept.new) }
{
    ways.from = NO_NODE;
    let shortest = kept.least_lengths(alloc)?;
    let mut is_new = false;
    for i in 0..shortest.len() {
        let is_kept = keep_way(
            alloc,
            problem,
            shared,
            search,
            parts,
            i,
            shortest[i],
            ways,
            kept,
        )?;
        is_new = is_new | is_kept;
    }
    Ok(is_new)
}

/// The sweeps without a search after one with so many before it: more of them where the search showed no new way.
fn between_after(net: &Network, between: usize, is_new: bool) -> usize
    requires { between ≤ 23 }
    ensures { result ≤ 23 }
{
    if is_new {
        effort_of(net).between
    } else {
        (2 * between + 1).min(MOST_BETWEEN)
    }
}

/// Goes on to the next sweep, by whose weights the ways are measured. If it is time, rows are searched before it by its weights, and
/// the least ways of the dear pairs that they show are kept.
fn go_on(
    alloc: Global,
    problem: &Problem,
    shared: &SharedLink,
    parts: u64,
    ways: &mut Ways,
    at: &mut RestrictedSearch,
) -> Result<(), Memory>
    requires problem { IsProblem problem.now }
    requires shared { IsLinkOf problem.now shared.now }
    requires parts { (1 ≤ parts) × (parts ≤ 128) }
    requires ways { AreLastLinks problem.now.net.now ways.old.lasts.items }
    requires at { IsRestrictedSearchOf problem.now shared.now at.old }
    ensures ways { OnOk result (AreLastLinks problem.now.net.now ways.new.lasts.items) }
    ensures at { OnOk result (IsRestrictedSearchOf problem.now shared.now at.new) }
{
    at.kept.measure(&at.weights);
    if at.left > 0 {
        at.left -= 1;
        return Ok(());
    }
    let weights = Vec::from_slice(alloc, &at.weights)?;
    move_to(alloc, problem, shared, &mut at.search, weights)?;
    let is_new = keep_ways(
        alloc,
        problem,
        shared,
        &at.search,
        parts,
        ways,
        &mut at.kept,
    )?;
    at.between = between_after(problem.net, at.between, is_new);
    at.left = at.between;
    Ok(())
}

/// Writes the loads of the worst of all matrices over the kept ways for the weights of the next sweep.
fn respond(
    problem: &Problem,
    shared: &SharedLink,
    parts: u64,
    at: &RestrictedSearch,
    loads: &mut [u128],
)
    requires shared { IsLinkOf problem.now shared.now }
    requires parts { (1 ≤ parts) × (parts ≤ 128) }
    requires at { IsRestrictedSearchOf problem.now shared.now at.now }
    requires loads { AreLoadsWithin problem.now.net.now loads.old }
    ensures loads { AreLoadsWithin problem.now.net.now loads.new }
{
    let scale = at.kept.greatest_quotient();
    at.kept.write_loads(scale, 2 * u128::from(parts), loads);
}

/// Makes the sweeps of a stage. Whether the search goes on after it: neither is the goal reached nor has no link a load. `ways`
/// and `loads` are room for what each sweep finds.
fn make_stage(
    alloc: Global,
    problem: &Problem,
    shared: &SharedLink,
    stage: Stage,
    goal: u128,
    at: &mut RestrictedSearch,
    ways: &mut Ways,
    loads: &mut [u128],
) -> Result<bool, Memory>
    requires problem { IsProblem problem.now }
    requires shared { IsLinkOf problem.now shared.now }
    requires parts { (1 ≤ stage.parts) × (stage.parts ≤ 128) }
    requires at { IsRestrictedSearchOf problem.now shared.now at.old }
    requires ways { AreLastLinks problem.now.net.now ways.old.lasts.items }
    requires loads { AreLoadsWithin problem.now.net.now loads.old }
    ensures at { OnOk result (IsRestrictedSearchOf problem.now shared.now at.new) }
    ensures ways { OnOk result (AreLastLinks problem.now.net.now ways.new.lasts.items) }
    ensures loads { OnOk result (AreLoadsWithin problem.now.net.now loads.new) }
{
    for _ in 0..stage.sweeps {
        respond(problem, shared, stage.parts, at, loads);
        if at.search.best.need <= goal || !has_load(loads) {
            return Ok(false);
        }
        step_weights(problem.net, &mut at.weights, loads, stage.parts);
        go_on(alloc, problem, shared, stage.parts, ways, at)?;
    }
    Ok(true)
}

/// The next stage, by steps of half the size.
fn next_stage(course: Course, stage: Stage) -> Stage
    requires parts { (1 ≤ stage.parts) × (stage.parts ≤ 128) }
    ensures { (1 ≤ result.parts) × (result.parts ≤ 128) }
{
    let parts = (2 * stage.parts).min(MAX_PARTS);
    stage_of(course, parts)
}

/// Makes the stages of the course, until the goal is reached or no link has a load. `ways` and `loads` are room for what each sweep
/// finds.
fn make_stages(
    alloc: Global,
    problem: &Problem,
    shared: &SharedLink,
    course: Course,
    goal: u128,
    at: &mut RestrictedSearch,
    ways: &mut Ways,
    loads: &mut [u128],
) -> Result<(), Memory>
    requires problem { IsProblem problem.now }
    requires shared { IsLinkOf problem.now shared.now }
    requires parts { (1 ≤ course.parts) × (course.parts ≤ 128) }
    requires at { IsRestrictedSearchOf problem.now shared.now at.old }
    requires ways { AreLastLinks problem.now.net.now ways.old.lasts.items }
    requires loads { AreLoadsWithin problem.now.net.now loads.old }
    ensures { OnOk result (IsRestrictedSearchOf problem.now shared.now at.new) }
{
    let mut stage = stage_of(course, course.parts);
    for _ in 0..course.stages {
        if !make_stage(alloc, problem, shared, stage, goal, at, ways, loads)? {
            return Ok(());
        }
        stage = next_stage(course, stage);
    }
    Ok(())
}

/// The search by kept ways at its start, which has searched rows already.
fn first_ways(
    alloc: Global,
    problem: &Problem,
    shared: &SharedLink,
    search: Search,
    parts: u64,
    ways: &mut Ways,
) -> Result<RestrictedSearch, Memory>
    requires problem { IsProblem problem.now }
    requires shared { IsLinkOf problem.now shared.now }
    requires search { IsSearchOf problem.now shared.now search }
    requires parts { (1 ≤ parts) × (parts ≤ 128) }
    requires ways { AreLastLinks problem.now.net.now ways.old.lasts.items }
    ensures ways { OnOk result (AreLastLinks problem.now.net.now ways.new.lasts.items) }
    ensures at { IfOk result (IsRestrictedSearchOf problem.now shared.now) }
{
    let mut kept = KeptWays::new(alloc, shared.list.as_slice().len());
    keep_ways(alloc, problem, shared, &search, parts, ways, &mut kept)?;
    let weights = Vec::from_slice(alloc, search.metric.weights.as_slice())?;
    let between = effort_of(problem.net).between;
    Ok(RestrictedSearch {
        search,
        weights,
        kept,
        left: between,
        between,
    })
}

/// The best weights that the sweeps of the course find.
fn finish(
    alloc: Global,
    problem: &Problem,
    shared: &SharedLink,
    search: Search,
    course: Course,
    goal: u128,
) -> Result<Weighting, Memory>
    requires problem { IsProblem problem.now }
    requires shared { IsLinkOf problem.now shared.now }
    requires search { IsSearchOf problem.now shared.now search }
    requires parts { (1 ≤ course.parts) × (course.parts ≤ 128) }
    ensures link { IfOk result (λ w. w.link ≡ shared.now.link) }
    ensures weighting { IfOk result (IsWeightingOf problem.now) }
{
    let mut loads = vec![in alloc; 0; problem.net.links.as_slice().len()]?;
    let mut ways = no_ways(alloc, problem.net)?;
    let mut at = first_ways(alloc, problem, shared, search, course.parts, &mut ways)?;
    make_stages(
        alloc, problem, shared, course, goal, &mut at, &mut ways, &mut loads,
    )?;
    Ok(at.search.best)
}

/// Weights of the link that need little for all matrices, sought by stages of sweeps whose steps grow ever smaller. The search ends
/// early where it reaches the goal, and where no link has a load.
///
/// Whatever it finds, there is one weight for each link, from 1 to 2^28. `Memory` comes where memory is wanting.
pub fn seek_by_ways(
    alloc: Global,
    problem: &Problem,
    shared: &SharedLink,
    goal: u128,
) -> Result<Weighting, Memory>
    requires problem { IsProblem problem.now }
    requires shared { IsLinkOf problem.now shared.now }
    ensures link { IfOk result (λ w. w.link ≡ shared.now.link) }
    ensures weighting { IfOk result (IsWeightingOf problem.now) }
{
    let search = start(alloc, problem, shared)?;
    finish(alloc, problem, shared, search, FIRST, goal)
}

/// The same from these weights on, by more sweeps whose steps are smaller from the first one on.
pub fn seek_further(
    alloc: Global,
    problem: &Problem,
    shared: &SharedLink,
    weights: &[u64],
    goal: u128,
) -> Result<Weighting, Memory>
    requires problem { IsProblem problem.now }
    requires shared { IsLinkOf problem.now shared.now }
    requires weights { AreWeights problem.now.net.now weights.now }
    ensures link { IfOk result (λ w. w.link ≡ shared.now.link) }
    ensures weighting { IfOk result (IsWeightingOf problem.now) }
{
    let halves = halves_of(alloc, weights)?;
    let search = start_from(alloc, problem, shared, halves)?;
    finish(
        alloc,
        problem,
        shared,
        search,
        second_course(problem.net),
        goal,
    )
}
