//! The rounds of a link, and the best of them.
ghost use Rattle.std.specs.Prelude.{◌≡◌, ◌*◌, ◌+◌, ◌^◌, ◌<◌, ◌≤◌, IfOk, IfSome, IsTrue, OnOk};
ghost use Rattle.te_model.specs.Network.{is_well_formed};
ghost use Rattle.shortest_path.specs.declared.rows.Direction.TheVariants.{Forward};
ghost use Rattle.shortest_path.specs.Rows.{IsSearchGraph};
ghost use Rattle.ratio_certificate.specs.Problems.{IsLinkOf, IsProblem, IsStartingMetric, IsWeightingOf};
ghost use Rattle.ratio_certificate.specs.Rising.{AreRoundsTo, IsRoundMetric, NeedsNoMore};

use crate::problem::Problem;
use crate::raising::next_round;
use crate::weighting::{Weighting, keep_lesser, weighting_of};
use best_blocks::{Metric, SharedLink, metric_after, metric_of};
use routing::Routing;
use shortest_path::Searches;
use std::alloc::Global;
use te_model::{Memory, Network};

/// The weight of every link from which a certificate starts.
const STARTING_WEIGHT: u64 = 1 << 20;

/// The number of rounds.
const ROUNDS: usize = 16;

/// The metric of the starting weights, with a row for each node. `Memory` comes where memory is wanting.
pub fn starting_metric(alloc: Global, net: &Network, routing: &Routing) -> Result<Metric, Memory>
    requires network { IsTrue (is_well_formed net.now) }
    ensures { IfOk result (IsStartingMetric net.now routing.now.routes) }
{
    let weights = vec![in alloc; STARTING_WEIGHT; net.links.as_slice().len()]?;
    let marks = vec![in alloc; true; net.names.as_slice().len()]?;
    metric_of(alloc, net, routing, &marks, weights)
}

/// The metric of the starting weights, which are those of round 0: its rows are copies of those of the problem.
pub fn first_metric(alloc: Global, problem: &Problem, shared: &SharedLink) -> Result<Metric, Memory>
    requires problem { IsProblem problem.now }
    requires shared { IsLinkOf problem.now shared.now }
    ensures { IfOk result (IsRoundMetric problem.now.net.now problem.now.routing.now.routes shared.now 0) }
{
    let weights = Vec::from_slice(alloc, problem.first.weights.as_slice())?;
    let mut searches = None;
    metric_after(
        alloc,
        problem.net,
        problem.routing,
        shared.marks.as_slice(),
        &mut searches,
        problem.first,
        &[],
        weights,
    )
}

/// The metric of the next round. The searches, if there are some yet, are along links in the network.
fn next_metric(
    alloc: Global,
    problem: &Problem,
    shared: &SharedLink,
    metric: &Metric,
    searches: &mut Option<Searches>,
    round: usize,
) -> Result<Metric, Memory>
    requires problem { IsProblem problem.now }
    requires shared { IsLinkOf problem.now shared.now }
    requires metric { IsRoundMetric problem.now.net.now problem.now.routing.now.routes shared.now round metric.now }
    requires along { IfSome searches.old (IsSearchGraph problem.now.net.now Forward) }
    requires round { round < 15 }
    ensures metric { IfOk result (IsRoundMetric problem.now.net.now problem.now.routing.now.routes shared.now (round + 1)) }
    ensures along { IfSome searches.new (IsSearchGraph problem.now.net.now Forward) }
{
    let next = next_round(alloc, problem, shared, metric)?;
    let marks = shared.marks.as_slice();
    let weights = next.weights.into_vec();
    metric_after(
        alloc,
        problem.net,
        problem.routing,
        marks,
        searches,
        metric,
        next.path.as_slice(),
        weights,
    )
}

/// Where the rounds stand: the metric of the last one, and the weights of the best one so far.
#[derive(Drop)]
pub struct Rounds {
    pub metric: Metric,
    pub best: Weighting,
    /// Searches along links in the network: each row is searched in the order of the round before.
    pub searches: Option<Searches>,
}

/// The rounds at their start, which is round 0. The searches, if there are some, are along links in the network.
fn start(
    alloc: Global,
    problem: &Problem,
    shared: &SharedLink,
    searches: Option<Searches>,
) -> Result<Rounds, Memory>
    requires problem { IsProblem problem.now }
    requires shared { IsLinkOf problem.now shared.now }
    requires along { IfSome searches (IsSearchGraph problem.now.net.now Forward) }
    ensures { IfOk result (AreRoundsTo 0 problem.now.net.now problem.now.routing.now.routes problem.now.set.now shared.now) }
{
    let metric = first_metric(alloc, problem, shared)?;
    let best = weighting_of(alloc, problem, shared, &metric)?;
    Ok(Rounds {
        metric,
        best,
        searches,
    })
}

/// Makes one more round.
fn advance(
    alloc: Global,
    problem: &Problem,
    shared: &SharedLink,
    rounds: &mut Rounds,
    round: usize,
) -> Result<(), Memory>
    requires problem { IsProblem problem.now }
    requires shared { IsLinkOf problem.now shared.now }
    requires rounds { AreRoundsTo round problem.now.net.now problem.now.routing.now.routes problem.now.set.now shared.now rounds.old }
    requires round { round < 15 }
    ensures { OnOk result (AreRoundsTo (round + 1) problem.now.net.now problem.now.routing.now.routes problem.now.set.now shared.now rounds.new) }
{
    let searches = &mut rounds.searches;
    let metric = next_metric(alloc, problem, shared, &rounds.metric, searches, round)?;
    let found = weighting_of(alloc, problem, shared, &metric)?;
    rounds.metric = metric;
    keep_lesser(&mut rounds.best, found);
    Ok(())
}

/// Makes the rounds after round 0.
fn make_rounds(
    alloc: Global,
    problem: &Problem,
    shared: &SharedLink,
    rounds: &mut Rounds,
) -> Result<(), Memory>
    requires problem { IsProblem problem.now }
    requires shared { IsLinkOf problem.now shared.now }
    requires rounds { AreRoundsTo 0 problem.now.net.now problem.now.routing.now.routes problem.now.set.now shared.now rounds.old }
    ensures { OnOk result (AreRoundsTo 15 problem.now.net.now problem.now.routing.now.routes problem.now.set.now shared.now rounds.new) }
{
    for k in 0..ROUNDS - 1 {
        advance(alloc, problem, shared, rounds, k)?;
    }
    Ok(())
}

/// The weights of the round that needs least, the first of equal ones. The searches, if there are some, are along links in the
/// network: each row is searched in the order in which they ended, and so for the next link in that of this one.
pub fn best_round(
    alloc: Global,
    problem: &Problem,
    shared: &SharedLink,
    searches: &mut Option<Searches>,
) -> Result<Weighting, Memory>
    requires problem { IsProblem problem.now }
    requires shared { IsLinkOf problem.now shared.now }
    requires along { IfSome searches.old (IsSearchGraph problem.now.net.now Forward) }
    ensures link { IfOk result (λ w. w.link ≡ shared.now.link) }
    ensures weighting { IfOk result (IsWeightingOf problem.now) }
    ensures least { IfOk result (NeedsNoMore problem.now.net.now problem.now.routing.now.routes problem.now.set.now shared.now.link 15) }
    ensures small { IfOk result (λ w. w.need ≤ 1000000 * 2 ^ 42) }
    ensures along { OnOk result (IfSome searches.new (IsSearchGraph problem.now.net.now Forward)) }
{
    let mut rounds = start(alloc, problem, shared, searches.take())?;
    make_rounds(alloc, problem, shared, &mut rounds)?;
    *searches = rounds.searches.take();
    Ok(rounds.best)
}
