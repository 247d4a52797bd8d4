//! Whether weights are fine: those that are not are doubled before single ones are changed.
ghost use Rattle.std.specs.Prelude.{◌≡◌, ◌^◌, ◌<◌, ◌≤◌, ℕ, true, false, length, slice_index};
ghost use Rattle.ratio_certificate.specs.Polished.{IsCoarse, IsFine};

/// Weights are fine where one is no less than this.
const FINE_WEIGHT: u64 = 1 << 20;

/// Weights are fine where `b` is no less than this.
const FINE_B: u64 = 1 << 35;

/// Whether one of the weights is at least 2^20.
fn has_fine_weight(weights: &[u64]) -> bool
    ensures some { result ≡ true → (h : ℕ) × (h < length weights.now) × (2 ^ 20 ≤ slice_index weights.now h) }
    ensures none { result ≡ false → (h : ℕ) → h < length weights.now → slice_index weights.now h < 2 ^ 20 }
{
    for h in 0..weights.len() {
        if weights[h] >= FINE_WEIGHT {
            return true;
        }
    }
    false
}

/// Whether the weights of a block are fine: one of them is at least 2^20, or the `b` of its scale is at least 2^35. Those that are
/// not have room to double, and `b` with them.
pub fn is_fine(weights: &[u64], b: u64) -> bool
    ensures fine { result ≡ true → IsFine weights.now b }
    ensures coarse { result ≡ false → IsCoarse weights.now b }
{
    b >= FINE_B || has_fine_weight(weights)
}
