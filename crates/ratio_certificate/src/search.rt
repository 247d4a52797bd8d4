//! The search for better weights of the links whose weights need most.
ghost use Rattle.std.specs.Prelude.{◌≡◌, ◌<◌, ◌≤◌, IfOk, OnOk, length, slice_set};
ghost use Rattle.ratio_certificate.specs.Form.{HasBounds};
ghost use Rattle.ratio_certificate.specs.Places.{weighting_at};
ghost use Rattle.ratio_certificate.specs.Problems.{AreLinksOf, AreWeightingsOf, IsLinkOf, IsMetricOfEach, IsProblem, IsWeightingOf};
ghost use Rattle.ratio_certificate.specs.Weighting.{AreWeights};

use crate::effort::effort_of;
use crate::polish::{metric_by, worst};
use crate::problem::Problem;
use crate::restricted::{seek_by_ways, seek_further};
use crate::seek::{seek, seek_from};
use crate::weighting::{Weighting, weighting_of};
use best_blocks::{Metric, SharedLink};
use shortest_path::{Direction, Searches};
use std::alloc::Global;
use te_model::{DemandSet, Memory};

/// Weights are close to the floor that need at most one of so many parts of it more.
const CLOSENESS: u128 = 64;

/// Puts the weights in place of those at the place, if they need less.
fn take_lesser(list: &mut [Weighting], place: usize, found: Weighting)
    requires place { place < length list.old }
    ensures lesser { found.need < (weighting_at list.old place).need → list.new ≡ slice_set list.old place found }
    ensures same { (weighting_at list.old place).need ≤ found.need → list.new ≡ list.old }
{
    if found.need < list[place].need {
        list[place] = found;
    }
}

/// Puts the weights of the metric in place of those of each link where they need less there.
fn take_on_each(
    alloc: Global,
    problem: &Problem,
    links: &[SharedLink],
    list: &mut [Weighting],
    metric: &Metric,
) -> Result<(), Memory>
    requires links { AreLinksOf problem.now links.now }
    requires list { AreWeightingsOf problem.now links.now list.old list.old }
    requires metric { IsMetricOfEach problem.now links.now metric.now }
    requires weights { AreWeights problem.now.net.now metric.now.weights }
    ensures { OnOk result (AreWeightingsOf problem.now links.now list.old list.new) }
{
    for k in 0..links.len() {
        let found = weighting_of(alloc, problem, &links[k], metric)?;
        take_lesser(list, k, found);
    }
    Ok(())
}

/// Puts the weights at the place in place of those of each link where they need less there. Between bounds every source has a
/// row, so that one metric serves all links.
fn offer_between(
    alloc: Global,
    problem: &Problem,
    links: &[SharedLink],
    list: &mut [Weighting],
    place: usize,
) -> Result<(), Memory>
    requires bounded { HasBounds problem.now.set.now }
    requires links { AreLinksOf problem.now links.now }
    requires list { AreWeightingsOf problem.now links.now list.old list.old }
    requires place { place < length list.old }
    ensures { OnOk result (AreWeightingsOf problem.now links.now list.old list.new) }
{
    let mut searches = Searches::with_orders(alloc, problem.net, Direction::Forward)?;
    let metric = metric_by(alloc, problem, &links[place], &mut searches, &list[place])?;
    take_on_each(alloc, problem, links, list, &metric)
}

/// Between bounds, where the worst matrices of the links are much alike: puts the weights at the place in place of those of each
/// link where they need less there.
fn offer_to_others(
    alloc: Global,
    problem: &Problem,
    links: &[SharedLink],
    list: &mut [Weighting],
    place: usize,
) -> Result<(), Memory>
    requires links { AreLinksOf problem.now links.now }
    requires list { AreWeightingsOf problem.now links.now list.old list.old }
    requires place { place < length list.old }
    ensures { OnOk result (AreWeightingsOf problem.now links.now list.old list.new) }
{
    match problem.set {
        DemandSet::All => Ok(()),
        DemandSet::Margin { .. } => offer_between(alloc, problem, links, list, place),
        DemandSet::Box { .. } => offer_between(alloc, problem, links, list, place),
    }
}

/// Whether weights of this need may be near the best ones where the others need so much.
fn is_close(need: u128, floor: u128) -> bool {
    need.saturating_sub(floor) <= floor / CLOSENESS
}

/// How often a link is searched at most: for all matrices twice, where no weights near its best ones may be offered.
fn most_searches(problem: &Problem) -> u32
    ensures { result ≤ 2 }
{
    match problem.set {
        DemandSet::All => if problem.near_offers { 1 } else { 2 },
        DemandSet::Margin { .. } => 1,
        DemandSet::Box { .. } => 1,
    }
}

/// What others that were searched as often need, by how often a link was searched before.
#[derive(Clone, Copy)]
struct Floors {
    first: u128,
    second: u128,
}

/// The need of others that were searched once more than so often.
fn floor_of(floors: Floors, searches: u32) -> u128 {
    if searches == 0 {
        floors.first
    } else {
        floors.second
    }
}

/// The floors after a search of a link that was searched so often before, and now needs so much: they rise where that is more than
/// was good enough.
fn floors_after(floors: Floors, searches: u32, need: u128, goal: u128) -> Floors {
    let mut after = floors;
    if need > goal && searches == 0 {
        after.first = need;
    } else if need > goal {
        after.second = need;
    }
    after
}

/// The need at which a search of a link that was searched so often may end: the floor, or a little more where links are searched
/// twice.
fn goal_of(problem: &Problem, floors: Floors, searches: u32) -> u128 {
    let floor = floor_of(floors, searches);
    let effort = effort_of(problem.net);
    if most_searches(problem) < 2 {
        floor
    } else if searches == 0 {
        floor.saturating_add(floor / effort.first_slack)
    } else {
        floor.saturating_add(floor / effort.second_slack)
    }
}

/// Whether a link that was searched so often is searched no more.
fn is_left(problem: &Problem, searches: u32, need: u128, floors: Floors) -> bool {
    let most = floors.second / effort_of(problem.net).last_slack;
    searches >= most_searches(problem)
        || searches == 1 && need.saturating_sub(floors.second) <= most
}

/// Weights that are sought for the link of which no weights near the best ones are known, after so many searches of it.
fn seek_anew(
    alloc: Global,
    problem: &Problem,
    shared: &SharedLink,
    weights: &[u64],
    searches: u32,
    goal: u128,
) -> Result<Weighting, Memory>
    requires problem { IsProblem problem.now }
    requires shared { IsLinkOf problem.now shared.now }
    requires weights { AreWeights problem.now.net.now weights.now }
    ensures link { IfOk result (λ w. w.link ≡ shared.now.link) }
    ensures weighting { IfOk result (IsWeightingOf problem.now) }
{
    match problem.set {
        DemandSet::All => {
            if searches == 0 {
                seek_by_ways(alloc, problem, shared, goal)
            } else {
                seek_further(alloc, problem, shared, weights, goal)
            }
        }
        DemandSet::Margin { .. } => seek(alloc, problem, shared, goal),
        DemandSet::Box { .. } => seek(alloc, problem, shared, goal),
    }
}

/// Weights that are sought for the link, whose best ones so far are these, after so many searches of it.
fn sought(
    alloc: Global,
    problem: &Problem,
    shared: &SharedLink,
    weighting: &Weighting,
    searches: u32,
    goal: u128,
) -> Result<Weighting, Memory>
    requires problem { IsProblem problem.now }
    requires shared { IsLinkOf problem.now shared.now }
    requires weights { AreWeights problem.now.net.now weighting.now.weights }
    ensures link { IfOk result (λ w. w.link ≡ shared.now.link) }
    ensures weighting { IfOk result (IsWeightingOf problem.now) }
{
    let weights = weighting.weights.as_slice();
    if problem.near_offers && is_close(weighting.need, goal) {
        seek_from(alloc, problem, shared, weights, goal)
    } else {
        seek_anew(alloc, problem, shared, weights, searches, goal)
    }
}

/// Puts weights that are sought for the link at the place, which was searched so often, in place of those of the list where they
/// need less.
fn search_at(
    alloc: Global,
    problem: &Problem,
    links: &[SharedLink],
    list: &mut [Weighting],
    place: usize,
    searches: u32,
    goal: u128,
) -> Result<(), Memory>
    requires links { AreLinksOf problem.now links.now }
    requires list { AreWeightingsOf problem.now links.now list.old list.old }
    requires place { place < length list.old }
    ensures { OnOk result (AreWeightingsOf problem.now links.now list.old list.new) }
{
    let found = sought(alloc, problem, &links[place], &list[place], searches, goal)?;
    take_lesser(list, place, found);
    offer_to_others(alloc, problem, links, list, place)?;
    Ok(())
}

/// Puts weights that were sought in place of those of the list where they need less. The search goes to the link of the first
/// weights of the greatest need, until that link has been searched as often as links are. The need that a searched link keeps is
/// good enough for the others, and for all matrices little more is, which then changes nothing for those after it. Between bounds
/// the weights of a searched link are offered to all others.
///
/// `Memory` comes where memory is wanting.
pub fn search(
    alloc: Global,
    problem: &Problem,
    links: &[SharedLink],
    list: &mut [Weighting],
) -> Result<(), Memory>
    requires links { AreLinksOf problem.now links.now }
    requires list { AreWeightingsOf problem.now links.now list.old list.old }
    ensures { OnOk result (AreWeightingsOf problem.now links.now list.old list.new) }
{
    let mut searches = vec![in alloc; 0; links.len()]?;
    let mut floors = Floors {
        first: 0,
        second: 0,
    };
    for _ in 0..links.len().saturating_mul(2) {
        match worst(list) {
            Some(k) => {
                let before = searches[k];
                if is_left(problem, before, list[k].need, floors) {
                    return Ok(());
                }
                let goal = goal_of(problem, floors, before);
                search_at(alloc, problem, links, list, k, before, goal)?;
                searches[k] = before.saturating_add(1);
                floors = floors_after(floors, before, list[k].need, goal);
            }
            None => return Ok(()),
        }
    }
    Ok(())
}
