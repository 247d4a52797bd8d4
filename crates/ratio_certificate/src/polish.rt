//! The polish: the first weights of the greatest need are doubled until they are fine, and then changed one by one while that improves their need.
ghost use Rattle.std.specs.Prelude.{◌≡◌, ◌^◌, ◌<◌, ◌≤◌, ℕ, IfOk, IfSome, IfNone, OnOk, length, slice_index};
ghost use Rattle.te_model.specs.Network.{link_count};
ghost use Rattle.shortest_path.specs.declared.rows.Direction.TheVariants.{Forward};
ghost use Rattle.shortest_path.specs.Rows.{IsSearchGraph};
ghost use Rattle.ratio_certificate.specs.Places.{weighting_at};
ghost use Rattle.ratio_certificate.specs.Polished.{IsCoarse, IsFine, IsWorst};
ghost use Rattle.ratio_certificate.specs.Problems.{AreLinksOf, AreWeightingsOf, IsDoneOf, IsLinkOf, IsMetricOf, IsProblem, IsProgressOf, IsSettledOf, IsWeightingOf};
ghost use Rattle.ratio_certificate.specs.Steps.{IsImprovement, IsSettledAt};
ghost use Rattle.ratio_certificate.specs.Weighting.{AreDoubled, AreWeights};

use crate::changes::{Change, Changes};
use crate::critical::critical_sources;
use crate::fine::is_fine;
use crate::problem::Problem;
use crate::weighting::{Weighting, weighting_of};
use best_blocks::{Metric, Scale, SharedLink, metric_of, metric_with};
use shortest_path::{Direction, Searches};
use std::alloc::Global;
use te_model::Memory;

/// The first place of the greatest need, or `None` where there is none.
pub fn worst(list: &[Weighting]) -> Option<usize>
    ensures some { IfSome result (IsWorst (length list.now) (λ j. (weighting_at list.now j).need)) }
    ensures none { IfNone result (length list.now ≡ 0) }
{
    if list.len() == 0 {
        return None;
    }
    let mut place = 0;
    for k in 0..list.len() {
        if list[place].need < list[k].need {
            place = k;
        }
    }
    Some(place)
}

/// Twice each of the weights.
fn double_weights(alloc: Global, weights: &[u64]) -> Result<Vec<u64>, Memory>
    requires { (h : ℕ) → h < length weights.now → slice_index weights.now h < 2 ^ 20 }
    ensures { IfOk result (λ w. AreDoubled weights.now w.items) }
{
    let mut twice = Vec::with_capacity(alloc, weights.len())?;
    for h in 0..weights.len() {
        twice.push(2 * weights[h])?;
    }
    Ok(twice)
}

/// The metric of the weights. The searches are along links in the network.
pub fn metric_by(
    alloc: Global,
    problem: &Problem,
    shared: &SharedLink,
    searches: &mut Searches,
    weighting: &Weighting,
) -> Result<Metric, Memory>
    requires problem { IsProblem problem.now }
    requires shared { IsLinkOf problem.now shared.now }
    requires along { IsSearchGraph problem.now.net.now Forward searches.old }
    requires weights { AreWeights problem.now.net.now weighting.now.weights }
    ensures metric { IfOk result (IsMetricOf problem.now shared.now) }
    ensures weights { IfOk result (λ m. m.weights ≡ weighting.now.weights) }
    ensures same { searches.new ≡ searches.old }
{
    let weights = Vec::from_slice(alloc, weighting.weights.as_slice())?;
    metric_with(
        alloc,
        problem.net,
        problem.routing,
        shared.marks.as_slice(),
        searches,
        weights,
    )
}

/// The weights with each doubled. They need no more, and the greatest of them is nearer to 2^20.
fn double(
    alloc: Global,
    problem: &Problem,
    shared: &SharedLink,
    weighting: &Weighting,
) -> Result<Weighting, Memory>
    requires problem { IsProblem problem.now }
    requires shared { IsLinkOf problem.now shared.now }
    requires weighting { IsWeightingOf problem.now weighting.now }
    requires link { weighting.now.link ≡ shared.now.link }
    requires coarse { IsCoarse weighting.now.weights weighting.now.b }
    ensures { IfOk result (IsProgressOf problem.now weighting.now) }
{
    let weights = double_weights(alloc, weighting.weights.as_slice())?;
    let metric = metric_of(
        alloc,
        problem.net,
        problem.routing,
        shared.marks.as_slice(),
        weights,
    )?;
    weighting_of(alloc, problem, shared, &metric)
}

/// A change of one of the weights that improves what they need, sought from the link `from` on and then from the first.
fn find_change(
    alloc: Global,
    problem: &Problem,
    shared: &SharedLink,
    weighting: &Weighting,
    from: usize,
) -> Result<Option<Change>, Memory>
    requires problem { IsProblem problem.now }
    requires shared { IsLinkOf problem.now shared.now }
    requires weighting { IsWeightingOf problem.now weighting.now }
    requires link { weighting.now.link ≡ shared.now.link }
    requires from { from ≤ link_count problem.now.net.now }
    ensures some { IfOk result (λ o. IfSome o (λ c. IsImprovement problem.now.net.now problem.now.routing.now.routes problem.now.set.now shared.now.link weighting.now.need c.weighting)) }
    ensures link { IfOk result (λ o. IfSome o (λ c. c.link < link_count problem.now.net.now)) }
    ensures none { IfOk result (λ o. IfNone o ((h : ℕ) → h < link_count problem.now.net.now →
        IsSettledAt problem.now.net.now problem.now.routing.now.routes problem.now.set.now shared.now.link weighting.now.need weighting.now.weights h)) }
{
    let mut searches = Searches::with_orders(alloc, problem.net, Direction::Forward)?;
    let metric = metric_by(alloc, problem, shared, &mut searches, weighting)?;
    let critical = critical_sources(alloc, problem, shared, &metric)?;
    let changes = Changes {
        problem: *problem,
        shared,
        metric: &metric,
        scale: Scale {
            a: weighting.a,
            b: weighting.b,
        },
        need: weighting.need,
        critical: &critical,
    };
    changes.find(alloc, from)
}

/// A step of the polish: other weights at a place of the list, and the link from which the next change is sought.
#[derive(Drop)]
struct Step {
    place: usize,
    weighting: Weighting,
    from: usize,
}

/// A step of the weights at the place, or `None` where they are fine and no change improves their need.
fn step_at(
    alloc: Global,
    problem: &Problem,
    shared: &SharedLink,
    weighting: &Weighting,
    place: usize,
    from: usize,
) -> Result<Option<Step>, Memory>
    requires problem { IsProblem problem.now }
    requires shared { IsLinkOf problem.now shared.now }
    requires weighting { IsWeightingOf problem.now weighting.now }
    requires link { weighting.now.link ≡ shared.now.link }
    requires from { from ≤ link_count problem.now.net.now }
    ensures place { IfOk result (λ o. IfSome o (λ s. s.place ≡ place)) }
    ensures from { IfOk result (λ o. IfSome o (λ s. s.from ≤ link_count problem.now.net.now)) }
    ensures some { IfOk result (λ o. IfSome o (λ s. IsProgressOf problem.now weighting.now s.weighting)) }
    ensures fine { IfOk result (λ o. IfNone o (IsFine weighting.now.weights weighting.now.b)) }
    ensures none { IfOk result (λ o. IfNone o (IsSettledOf problem.now weighting.now)) }
{
    if !is_fine(weighting.weights.as_slice(), weighting.b) {
        let weighting = double(alloc, problem, shared, weighting)?;
        return Ok(Some(Step {
            place,
            weighting,
            from,
        }));
    }
    match find_change(alloc, problem, shared, weighting, from)? {
        Some(change) => Ok(Some(Step {
            place,
            weighting: change.weighting,
            from: change.link,
        })),
        None => Ok(None),
    }
}

/// A step of the first weights of the greatest need, or `None` where the list is done.
fn next_step(
    alloc: Global,
    problem: &Problem,
    links: &[SharedLink],
    list: &[Weighting],
    from: usize,
) -> Result<Option<Step>, Memory>
    requires links { AreLinksOf problem.now links.now }
    requires list { AreWeightingsOf problem.now links.now list.now list.now }
    requires from { from ≤ link_count problem.now.net.now }
    ensures place { IfOk result (λ o. IfSome o (λ s. s.place < length list.now)) }
    ensures from { IfOk result (λ o. IfSome o (λ s. s.from ≤ link_count problem.now.net.now)) }
    ensures some { IfOk result (λ o. IfSome o (λ s. IsProgressOf problem.now (weighting_at list.now s.place) s.weighting)) }
    ensures none { IfOk result (λ o. IfNone o (IsDoneOf problem.now list.now)) }
{
    match worst(list) {
        Some(k) => step_at(alloc, problem, &links[k], &list[k], k, from),
        None => Ok(None),
    }
}

/// Polishes the weights of the links.
pub fn polish(
    alloc: Global,
    problem: &Problem,
    links: &[SharedLink],
    list: &mut [Weighting],
) -> Result<(), Memory>
    requires links { AreLinksOf problem.now links.now }
    requires list { AreWeightingsOf problem.now links.now list.old list.old }
    ensures list { OnOk result (AreWeightingsOf problem.now links.now list.old list.new) }
    ensures done { OnOk result (IsDoneOf problem.now list.new) }
{
    let mut from = 0;
    loop {
        match next_step(alloc, problem, links, list, from)? {
            Some(step) => {
                list[step.place] = step.weighting;
                from = step.from;
            }
            None => return Ok(()),
        }
    }
}
