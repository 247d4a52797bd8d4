//! By what weights are scaled.
ghost use Rattle.std.specs.Prelude.{◌≡◌, ◌<◌, ◌≤◌, ℕ, false, IfSome, IfNone, IsTrue, All, length, slice_index};
ghost use Rattle.te_model.specs.Demand.{lower_of, upper_of};
ghost use Rattle.te_model.specs.Network.{is_well_formed};
ghost use Rattle.best_blocks.specs.Best.{IsBestScale, IsScaleForAll, IsScaleBetween, balances};
ghost use Rattle.best_blocks.specs.Conditions.{IsRoutingWithin, IsSetWithin};
ghost use Rattle.best_blocks.specs.Metric.{IsMetric};
ghost use Rattle.best_blocks.specs.Scale.{AreScalable, HasNoScale};
ghost use Rattle.best_blocks.specs.Sharing.{IsSharedLink};
ghost use Rattle.best_blocks.specs.Under.{IsScaleUnder};
ghost use Rattle.best_blocks.specs.Used.{AreSharesListed};

use crate::balance::greatest_balance;
use crate::metric::Metric;
use crate::quotient::{greatest_quotient, has_free_share};
use crate::sharing::SharedLink;
use routing::Routing;
use te_model::{DemandSet, Network, SHARE_UNIT};

/// By what the weights of a block are scaled: `a / b`.
#[derive(Clone, Copy)]
pub struct Scale {
    pub a: u64,
    pub b: u64,
}

/// The best scale for every matrix, or `None` where there is none.
fn scale_for_all(shared: &SharedLink, distances: &[u64]) -> Option<Scale>
    requires count { length distances.now ≡ length shared.now.shares }
    requires listed { AreSharesListed shared.now }
    requires some { (p : ℕ) × (p < length shared.now.shares) × (0 < slice_index shared.now.shares p) }
    ensures some { IfSome result (λ s. IsScaleForAll (length shared.now.shares) (slice_index shared.now.shares) (slice_index distances.now) s.a s.b) }
    ensures none { IfNone result ((p : ℕ) × (p < length shared.now.shares) × (0 < slice_index shared.now.shares p) × (slice_index distances.now p ≡ 0)) }
{
    if has_free_share(shared, distances) {
        return None;
    }
    let best = greatest_quotient(shared, distances);
    Some(Scale {
        a: best.share,
        b: best.distance,
    })
}

/// The best scale between the bounds of the set, or `None` where there is none.
fn scale_between(set: &DemandSet, shared: &SharedLink, distances: &[u64]) -> Option<Scale>
    requires numbers { AreScalable set.now shared.now.shares distances.now }
    requires listed { AreSharesListed shared.now }
    ensures some { IfSome result (λ s. IsScaleBetween (lower_of set.now) (upper_of set.now) (length shared.now.shares) (slice_index shared.now.shares) (slice_index distances.now) s.a s.b) }
    ensures none { IfNone result (balances (lower_of set.now) (upper_of set.now) (length shared.now.shares) (slice_index shared.now.shares) (slice_index distances.now) 1 ≡ false) }
{
    match greatest_balance(set, shared, distances) {
        Some(b) => Some(Scale { a: SHARE_UNIT, b }),
        None => None,
    }
}

/// The best scale, or `None` where there is none.
fn scale_of(set: &DemandSet, shared: &SharedLink, distances: &[u64]) -> Option<Scale>
    requires numbers { AreScalable set.now shared.now.shares distances.now }
    requires listed { AreSharesListed shared.now }
    requires some { (p : ℕ) × (p < length shared.now.shares) × (0 < slice_index shared.now.shares p) }
    ensures some { IfSome result (λ s. IsBestScale set.now (length shared.now.shares) (slice_index shared.now.shares) (slice_index distances.now) s.a s.b) }
    ensures none { IfNone result (HasNoScale set.now (length shared.now.shares) (slice_index shared.now.shares) (slice_index distances.now)) }
{
    match set {
        DemandSet::All => scale_for_all(shared, distances),
        DemandSet::Margin { .. } => scale_between(set, shared, distances),
        DemandSet::Box { .. } => scale_between(set, shared, distances),
    }
}

/// The best scale of the weights of the metric on the link, or `None` where there is none.
pub fn scale_under(
    net: &Network,
    routing: &Routing,
    set: &DemandSet,
    shared: &SharedLink,
    metric: &Metric,
) -> Option<Scale>
    requires network { IsTrue (is_well_formed net.now) }
    requires routing { IsRoutingWithin net.now routing.now.routes }
    requires set { IsSetWithin (length routing.now.routes) set.now }
    requires shared { IsSharedLink net.now routing.now.routes set.now shared.now }
    requires metric { IsMetric net.now routing.now.routes shared.now.marks metric.now }
    ensures some { IfSome result (λ s. IsScaleUnder net.now routing.now.routes set.now shared.now.link metric.now.weights s.a s.b) }
    ensures scale { IfSome result (λ s. IsBestScale set.now (length routing.now.routes) (slice_index shared.now.shares) (slice_index metric.now.distances) s.a s.b) }
    ensures none { IfNone result (HasNoScale set.now (length routing.now.routes) (slice_index shared.now.shares) (slice_index metric.now.distances)) }
{
    scale_of(set, shared, metric.distances.as_slice())
}
