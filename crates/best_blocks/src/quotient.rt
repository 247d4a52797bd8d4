//! The greatest share by distance.
ghost use Rattle.std.specs.Prelude.{◌≡◌, ◌*◌, ◌<◌, ◌≤◌, ℕ, true, false, length, slice_index};
ghost use Rattle.best_blocks.specs.Quotient.{IsGreatestAt};
ghost use Rattle.best_blocks.specs.Used.{AreSharesListed};

use crate::sharing::SharedLink;

/// A pair, its share, and its distance.
#[derive(Clone, Copy)]
pub struct Quotient {
    pub pair: usize,
    pub share: u64,
    pub distance: u64,
}

/// Whether a pair with a share has the distance 0.
pub fn has_free_share(shared: &SharedLink, distances: &[u64]) -> bool
    requires count { length distances.now ≡ length shared.now.shares }
    requires listed { AreSharesListed shared.now }
    ensures none { result ≡ false → (p : ℕ) → p < length shared.now.shares → 0 < slice_index shared.now.shares p → 1 ≤ slice_index distances.now p }
    ensures some { result ≡ true → (p : ℕ) × (p < length shared.now.shares) × (0 < slice_index shared.now.shares p) × (slice_index distances.now p ≡ 0) }
{
    for entry in shared.list.as_slice() {
        if distances[entry.pair as usize] == 0 {
            return true;
        }
    }
    false
}

/// The greater of two quotients, the first if they are equal.
#[tactic(auto, using(te_model::proofs::Sizes::product_fits))]
fn greater(first: Quotient, second: Quotient) -> Quotient
    ensures second { first.share * second.distance < second.share * first.distance → result ≡ second }
    ensures first { second.share * first.distance ≤ first.share * second.distance → result ≡ first }
{
    let ours = first.share as u128 * second.distance as u128;
    let theirs = second.share as u128 * first.distance as u128;
    if ours < theirs { second } else { first }
}

/// The greatest share by distance, the first of equal ones.
pub fn greatest_quotient(shared: &SharedLink, distances: &[u64]) -> Quotient
    requires count { length distances.now ≡ length shared.now.shares }
    requires listed { AreSharesListed shared.now }
    requires apart { (p : ℕ) → p < length shared.now.shares → 0 < slice_index shared.now.shares p → 1 ≤ slice_index distances.now p }
    requires some { (p : ℕ) × (p < length shared.now.shares) × (0 < slice_index shared.now.shares p) }
    ensures { IsGreatestAt (length shared.now.shares) (slice_index shared.now.shares) (slice_index distances.now) result.pair result.share result.distance }
{
    let mut best = Quotient {
        pair: 0,
        share: 0,
        distance: 1,
    };
    for entry in shared.list.as_slice() {
        let pair = entry.pair as usize;
        let next = Quotient {
            pair,
            share: entry.share,
            distance: distances[pair],
        };
        best = greater(best, next);
    }
    best
}

/// The first pair with the greatest share by distance.
pub fn dearest_pair(shared: &SharedLink, distances: &[u64]) -> usize
    requires count { length distances.now ≡ length shared.now.shares }
    requires listed { AreSharesListed shared.now }
    requires apart { (p : ℕ) → p < length shared.now.shares → 0 < slice_index shared.now.shares p → 1 ≤ slice_index distances.now p }
    requires some { (p : ℕ) × (p < length shared.now.shares) × (0 < slice_index shared.now.shares p) }
    ensures { (a : ℕ) × (b : ℕ) × IsGreatestAt (length shared.now.shares) (slice_index shared.now.shares) (slice_index distances.now) result a b }
{
    greatest_quotient(shared, distances).pair
}
