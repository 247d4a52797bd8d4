//! The weights of the next round.
ghost use Rattle.std.specs.Prelude.{◌≡◌, ◌*◌, ◌+◌, ◌/◌, ◌^◌, ◌<◌, ◌≤◌, ℕ, All, IfOk, IsTrue, length};
ghost use Rattle.te_model.specs.Network.{is_well_formed, capacity_of, link_count};
ghost use Rattle.ratio_certificate.specs.Problems.{IsLinkOf, IsMetricOf, IsProblem};
ghost use Rattle.ratio_certificate.specs.Rounds.{raised_weight, AreRaised, IsNarrowest};
ghost use Rattle.ratio_certificate.specs.Rising.{IsRoundAfter};
ghost use Rattle.ratio_certificate.specs.Weighting.{AreWeights};

use crate::problem::Problem;
use best_blocks::{Metric, SharedLink, dearest_pair};
use shortest_path::least_path;
use std::alloc::Global;
use te_model::{Items, Memory, Network};

/// The least capacity of the links of the path, of which there is at least one.
fn narrowest(net: &Network, path: &[u32]) -> u64
    requires links { All (λ h. h < link_count net.now) path.now }
    requires some { 0 < length path.now }
    ensures { IsNarrowest net.now path.now result }
{
    let links = net.links.as_slice();
    let mut least = links[path[0] as usize].capacity;
    for link in path {
        least = least.min(links[*link as usize].capacity);
    }
    least
}

/// A weight with what a round adds on a path whose least capacity is this.
fn raise_weight(least: u64, capacity: u64, weight: u64) -> u64
    requires weight { weight ≤ 2 ^ 28 }
    requires least { least ≤ capacity }
    requires capacity { (1 ≤ capacity) × (capacity ≤ 2 ^ 32) }
    ensures value { result ≡ raised_weight least capacity weight }
    ensures more { (weight ≤ result) × (result ≤ (5 * weight + 3) / 4) }
{
    let share = 4 * capacity;
    weight + (weight * least + (share - 1)) / share
}

/// The weights with those of the path's links raised.
fn raise(alloc: Global, net: &Network, path: &[u32], weights: &[u64]) -> Result<Vec<u64>, Memory>
    requires network { IsTrue (is_well_formed net.now) }
    requires links { All (λ h. h < link_count net.now) path.now }
    requires some { 0 < length path.now }
    requires weights { AreWeights net.now weights.now }
    ensures raised { IfOk result (λ w. (least : ℕ) × IsNarrowest net.now path.now least × AreRaised net.now path.now least weights.now w.items) }
{
    let least = narrowest(net, path);
    let links = net.links.as_slice();
    let mut next = Vec::from_slice(alloc, weights)?;
    for link in path {
        let h = *link as usize;
        next[h] = raise_weight(least, links[h].capacity, weights[h]);
    }
    Ok(next)
}

/// The weights of the next round, and the links on which they are raised.
#[derive(Drop)]
pub struct NextRound {
    /// One weight for each link.
    pub weights: Items<u64>,
    /// The links of the path on which they are raised.
    pub path: Items<u32>,
}

/// What follows the weights of the metric: those on the least path of the first pair with the
/// greatest share by distance are raised.
pub fn next_round(
    alloc: Global,
    problem: &Problem,
    shared: &SharedLink,
    metric: &Metric,
) -> Result<NextRound, Memory>
    requires problem { IsProblem problem.now }
    requires shared { IsLinkOf problem.now shared.now }
    requires metric { IsMetricOf problem.now shared.now metric.now }
    requires weights { AreWeights problem.now.net.now metric.now.weights }
    ensures { IfOk result (IsRoundAfter problem.now.net.now problem.now.routing.now.routes shared.now.link metric.now.weights) }
{
    let weights = metric.weights.as_slice();
    let dearest = dearest_pair(shared, metric.distances.as_slice());
    let pair = problem.routing.routes.as_slice()[dearest].pair;
    match least_path(alloc, problem.net, weights, pair.src, pair.dst)? {
        Some(path) => {
            let next = raise(alloc, problem.net, path.links.as_slice(), weights)?;
            Ok(NextRound {
                weights: Items::new(next),
                path: path.links,
            })
        }
        None => {
            let same = Vec::from_slice(alloc, weights)?;
            Ok(NextRound {
                weights: Items::new(same),
                path: Items::new(Vec::new(alloc)),
            })
        }
    }
}
