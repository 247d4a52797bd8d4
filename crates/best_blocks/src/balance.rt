//! Between bounds: the greatest number that balances what shares ask for against the distances.
ghost use Rattle.std.specs.Prelude.{◌≡◌, ◌^◌, ◌<◌, ◌≤◌, ℕ, IfSome, IfNone, false, length, slice_index};
ghost use Rattle.te_model.specs.declared.units.TheConstants.{SHARE_UNIT};
ghost use Rattle.te_model.specs.declared.limits.TheConstants.{FORMAT_2};
ghost use Rattle.te_model.specs.Demand.{lower_of, upper_of};
ghost use Rattle.te_model.specs.Inequalities.{weigh};
ghost use Rattle.best_blocks.specs.Best.{weighed_share, balances, IsGreatestBalance};
ghost use Rattle.best_blocks.specs.Scale.{AreScalable};
ghost use Rattle.best_blocks.specs.Used.{used_by_shares, used_by, AreSharesListed};

use crate::sharing::SharedLink;
use routing::PairShare;
use te_model::{DemandSet, SHARE_UNIT};

/// The greatest `b` of a block.
const MAX_B: u64 = 1 << 36;

/// `b` times the share, in whole units, rounded up.
pub fn weighed_share(share: u64, b: u64) -> u64
    requires share { share ≤ SHARE_UNIT }
    requires b { b ≤ 2 ^ 36 }
    ensures value { result ≡ weighed_share b share }
    ensures small { result ≤ 2 ^ 36 }
{
    (b * share + (SHARE_UNIT - 1)) / SHARE_UNIT
}

/// What a pair uses of what the distances allow.
#[tactic(auto, using(te_model::proofs::Sizes::bound_term))]
fn used_by(set: &DemandSet, entry: PairShare, distance: u64, b: u64) -> u128
    requires lower { lower_of set.now entry.pair ≤ 2 ^ 52 }
    requires upper { upper_of set.now entry.pair ≤ 2 ^ 52 }
    requires share { entry.share ≤ SHARE_UNIT }
    requires distance { distance ≤ 2 ^ 35 }
    requires b { b ≤ 2 ^ 36 }
    ensures value { result ≡ used_by (lower_of set.now entry.pair) (upper_of set.now entry.pair) distance (weighed_share b entry.share) }
    ensures small { result ≤ 2 ^ 89 }
{
    let pair = entry.pair as usize;
    let wanted = weighed_share(entry.share, b);
    let more = wanted.saturating_sub(distance);
    let within = wanted.min(distance);
    set.upper(pair) as u128 * more as u128 + set.lower(pair) as u128 * within as u128
}

/// What the pairs with a share use of what the distances allow. The other pairs use nothing.
fn used_by_shares(set: &DemandSet, shared: &SharedLink, distances: &[u64], b: u64) -> u128
    requires numbers { AreScalable set.now shared.now.shares distances.now }
    requires listed { AreSharesListed shared.now }
    requires b { b ≤ 2 ^ 36 }
    ensures { result ≡ used_by_shares (lower_of set.now) (upper_of set.now) (length shared.now.shares) (slice_index shared.now.shares) (slice_index distances.now) b }
{
    let mut sum: u128 = 0;
    for entry in shared.list.as_slice() {
        sum += used_by(set, *entry, distances[entry.pair as usize], b);
    }
    sum
}

/// What the distances allow at the lower bounds.
#[tactic(auto, using(te_model::proofs::Sizes::bound_term))]
fn allowance(set: &DemandSet, distances: &[u64]) -> u128
    requires few { length distances.now ≤ FORMAT_2.pairs }
    requires lower { (p : ℕ) → lower_of set.now p ≤ 2 ^ 52 }
    requires near { (p : ℕ) → slice_index distances.now p ≤ 2 ^ 35 }
    ensures { result ≡ weigh (length distances.now) (lower_of set.now) (slice_index distances.now) }
{
    let mut sum: u128 = 0;
    for p in 0..distances.len() {
        sum += set.lower(p) as u128 * distances[p] as u128;
    }
    sum
}

/// Whether what is added is taken back between the bounds of the set: whether the pairs use no more
/// than the distances allow, which is the same for every `b`.
fn balances(set: &DemandSet, shared: &SharedLink, distances: &[u64], allowed: u128, b: u64) -> bool
    requires numbers { AreScalable set.now shared.now.shares distances.now }
    requires listed { AreSharesListed shared.now }
    requires allowed { allowed ≡ weigh (length distances.now) (lower_of set.now) (slice_index distances.now) }
    requires b { b ≤ 2 ^ 36 }
    ensures { result ≡ balances (lower_of set.now) (upper_of set.now) (length shared.now.shares) (slice_index shared.now.shares) (slice_index distances.now) b }
{
    used_by_shares(set, shared, distances, b) <= allowed
}

/// The greatest number up to 2^36 that balances, or `None` where 1 does not. A greater number never
/// balances more easily, so the search halves.
pub fn greatest_balance(set: &DemandSet, shared: &SharedLink, distances: &[u64]) -> Option<u64>
    requires numbers { AreScalable set.now shared.now.shares distances.now }
    requires listed { AreSharesListed shared.now }
    ensures some { IfSome result (λ b. IsGreatestBalance (lower_of set.now) (upper_of set.now) (length shared.now.shares) (slice_index shared.now.shares) (slice_index distances.now) b) }
    ensures none { IfNone result (balances (lower_of set.now) (upper_of set.now) (length shared.now.shares) (slice_index shared.now.shares) (slice_index distances.now) 1 ≡ false) }
{
    let allowed = allowance(set, distances);
    if !balances(set, shared, distances, allowed, 1) {
        return None;
    }
    let mut low = 1;
    let mut high = MAX_B + 1;
    while high - low > 1 {
        let middle = low + (high - low) / 2;
        if balances(set, shared, distances, allowed, middle) {
            low = middle;
        } else {
            high = middle;
        }
    }
    Some(low)
}
