//! How long ways are by weights of the links.
ghost use Rattle.std.specs.Prelude.{◌≡◌, ℕ, ◌*◌, ◌^◌, ◌<◌, ◌≤◌, All, IfOk, length, slice_index};
ghost use Rattle.te_model.specs.declared.units.TheConstants.{SHARE_UNIT};
ghost use Rattle.kept_ways.specs.KeptWays.{length_by, way_at, AreLengths, IsKeptWay};

use crate::ways::KeptWay;
use best_blocks::Scale;
use std::alloc::Global;
use te_model::Memory;

/// The length at which a way ends to grow.
const MAX_LENGTH: u64 = 1 << 36;

/// The sum of the weights of the links, from 1 to 2^36.
pub fn length_of(links: &[u32], weights: &[u64]) -> u64
    requires { All (λ h. h < length weights.now) links.now }
    ensures { result ≡ length_by weights.now links.now }
{
    let mut sum: u64 = 0;
    for link in links {
        sum = sum.saturating_add(weights[*link as usize]).min(MAX_LENGTH);
    }
    sum.max(1)
}

/// Writes the length of each of the ways.
pub fn measure(ways: &[KeptWay], weights: &[u64], lengths: &mut [u64])
    requires count { length lengths.old ≡ length ways.now }
    requires links { All (λ w. All (λ h. h < length weights.now) w.links) ways.now }
    ensures count { length lengths.new ≡ length ways.now }
    ensures lengths { (i : ℕ) → i < length ways.now → slice_index lengths.new i ≡ length_by weights.now (way_at ways.now i).links }
{
    for i in 0..ways.len() {
        lengths[i] = length_of(ways[i].links.as_slice(), weights);
    }
}

/// The greater of the scale and of what the share is by the distance.
fn greater(best: Scale, share: u64, distance: u64) -> Scale
    requires best { (best.a ≤ SHARE_UNIT) × (best.b ≤ 2 ^ 36) }
    requires share { share ≤ SHARE_UNIT }
    requires distance { distance ≤ 2 ^ 36 }
    ensures taken { best.a * distance < share * best.b → (result.a ≡ share) × (result.b ≡ distance) }
    ensures kept { share * best.b ≤ best.a * distance → result ≡ best }
    ensures small { (result.a ≤ SHARE_UNIT) × (result.b ≤ 2 ^ 36) }
{
    if best.a * distance < share * best.b {
        Scale {
            a: share,
            b: distance,
        }
    } else {
        best
    }
}

/// The greatest share by length of the ways, or 0 by 1 where there are none.
pub fn greatest_quotient(ways: &[KeptWay], lengths: &[u64]) -> Scale
    requires ways { (pairs : ℕ) × All (IsKeptWay pairs) ways.now }
    requires lengths { AreLengths ways.now lengths.now }
    ensures greatest { (i : ℕ) → i < length ways.now → (way_at ways.now i).share * result.b ≤ result.a * slice_index lengths.now i }
    ensures a { result.a ≤ SHARE_UNIT }
    ensures b { (1 ≤ result.b) × (result.b ≤ 2 ^ 36) }
{
    let mut best = Scale { a: 0, b: 1 };
    for i in 0..ways.len() {
        best = greater(best, ways[i].share, lengths[i]);
    }
    best
}

/// The least length of a way of each of the pairs, and 2^64 - 1 where there is none.
pub fn least_lengths(
    alloc: Global,
    ways: &[KeptWay],
    lengths: &[u64],
    pairs: usize,
) -> Result<Vec<u64>, Memory>
    requires ways { All (IsKeptWay pairs) ways.now }
    requires lengths { AreLengths ways.now lengths.now }
    ensures count { IfOk result (λ l. length l.items ≡ pairs) }
    ensures least { IfOk result (λ l. (i : ℕ) → i < length ways.now → slice_index l.items (way_at ways.now i).place ≤ slice_index lengths.now i) }
{
    let mut least = vec![in alloc; u64::MAX; pairs]?;
    for i in 0..ways.len() {
        let place = ways[i].place;
        least[place] = least[place].min(lengths[i]);
    }
    Ok(least)
}
