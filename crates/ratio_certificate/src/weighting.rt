//! Weights of a link, and what they need.
ghost use Rattle.std.specs.Prelude.{◌≡◌, ◌^◌, ◌<◌, ◌≤◌, IfOk};
ghost use Rattle.best_blocks.specs.Under.{IsScaleUnder};
ghost use Rattle.ratio_certificate.specs.Problems.{IsLinkOf, IsMetricOf, IsProblem, IsWeightingOf};
ghost use Rattle.ratio_certificate.specs.Weighting.{AreWeights};

use crate::problem::Problem;
use best_blocks::{Metric, Scale, SharedLink, need_by, scale_under};
use std::alloc::Global;
use te_model::{Items, Memory};

/// Weights for the certificate of a link, by what they are scaled, and what they need.
#[derive(Drop)]
pub struct Weighting {
    /// The number of the link.
    pub link: u32,
    /// One weight for each link of the network.
    pub weights: Items<u64>,
    /// The weights are scaled by `a / b`.
    pub a: u64,
    pub b: u64,
    /// The least ratio, in millionths, that pays for the weights.
    pub need: u128,
}

/// The best scale of weights of 1 and more, which always have one.
fn scale_of(problem: &Problem, shared: &SharedLink, metric: &Metric) -> Scale
    requires problem { IsProblem problem.now }
    requires shared { IsLinkOf problem.now shared.now }
    requires metric { IsMetricOf problem.now shared.now metric.now }
    requires weights { AreWeights problem.now.net.now metric.now.weights }
    ensures scale { IsScaleUnder problem.now.net.now problem.now.routing.now.routes problem.now.set.now shared.now.link metric.now.weights result.a result.b }
    ensures a { result.a ≤ 2 ^ 36 }
    ensures b { (1 ≤ result.b) × (result.b ≤ 2 ^ 36) }
{
    match scale_under(problem.net, problem.routing, problem.set, shared, metric) {
        Some(scale) => scale,
        None => Scale { a: 0, b: 1 },
    }
}

/// The weights of the metric, and what they need on the link.
pub fn weighting_of(
    alloc: Global,
    problem: &Problem,
    shared: &SharedLink,
    metric: &Metric,
) -> Result<Weighting, Memory>
    requires problem { IsProblem problem.now }
    requires shared { IsLinkOf problem.now shared.now }
    requires metric { IsMetricOf problem.now shared.now metric.now }
    requires weights { AreWeights problem.now.net.now metric.now.weights }
    ensures link { IfOk result (λ w. w.link ≡ shared.now.link) }
    ensures weights { IfOk result (λ w. w.weights ≡ metric.now.weights) }
    ensures weighting { IfOk result (IsWeightingOf problem.now) }
{
    let scale = scale_of(problem, shared, metric);
    let need = need_by(problem.net, shared.link, metric.weights.as_slice(), scale);
    let weights = Vec::from_slice(alloc, metric.weights.as_slice())?;
    Ok(Weighting {
        link: shared.link,
        weights: Items::new(weights),
        a: scale.a,
        b: scale.b,
        need,
    })
}

/// Puts the other weights in place of the best ones, if they need less.
pub fn keep_lesser(best: &mut Weighting, found: Weighting)
    ensures same { best.old.need ≤ found.need → best.new ≡ best.old }
    ensures lesser { found.need < best.old.need → best.new ≡ found }
{
    if found.need < best.need {
        *best = found;
    }
}
