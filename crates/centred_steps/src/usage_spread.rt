//! The usage in the middle.
ghost use Rattle.std.specs.Prelude.{◌≡◌, ℕ, ◌*◌, ◌/◌, ◌^◌, ◌≤◌, IsTrue, length, slice_index};
ghost use Rattle.te_model.specs.declared.units.TheConstants.{RATIO_UNIT};
ghost use Rattle.te_model.specs.Network.{is_well_formed, link_count};
ghost use Rattle.centred_steps.specs.UsageSpread.{spread_by, mean_of, most_used, weighted_load};
ghost use Rattle.centred_steps.specs.Loads.{AreLoadsWithin, IsUsageSpread};
ghost use Rattle.centred_steps.specs.Weights.{AreWeightsUpTo};

use te_model::{Network, RATIO_UNIT, capacity_by};

/// The usage in the middle of those of all links, and how far the greatest lies above it.
#[derive(Clone, Copy, Debug, PartialEq, Eq)]
pub struct UsageSpread {
    /// The mean of the usages by weight and capacity, in millionths.
    pub mean: u128,
    /// At least 1.
    pub deviation: u128,
}

/// The load over the capacity, in millionths, rounded down.
pub fn usage_of(load: u128, capacity: u64) -> u128
    requires load { load ≤ 2 ^ 66 }
    requires capacity { 1 ≤ capacity }
    ensures usage { result ≡ load * RATIO_UNIT / capacity }
    ensures small { result ≤ 2 ^ 86 }
{
    load * u128::from(RATIO_UNIT) / u128::from(capacity)
}

/// The greatest usage of a link.
fn greatest_usage(net: &Network, loads: &[u128]) -> u128
    requires network { IsTrue (is_well_formed net.now) }
    requires loads { AreLoadsWithin net.now loads.now }
    ensures usage { result ≡ most_used net.now loads.now }
    ensures small { result ≤ 2 ^ 86 }
{
    let links = net.links.as_slice();
    let mut most = 0;
    for h in 0..links.len() {
        most = most.max(usage_of(loads[h], links[h].capacity));
    }
    most
}

/// The sum of the loads by the weights.
#[tactic(auto, using(crate::proofs::Products::load_term))]
fn load_by(weights: &[u64], loads: &[u128]) -> u128
    requires few { length loads.now ≤ 1024 }
    requires count { length weights.now ≡ length loads.now }
    requires weights { AreWeightsUpTo (2 ^ 27) weights.now }
    requires loads { (h : ℕ) → slice_index loads.now h ≤ 2 ^ 66 }
    ensures sum { result ≡ weighted_load (length loads.now) weights.now loads.now }
    ensures small { result ≤ 2 ^ 103 }
{
    let mut total: u128 = 0;
    for h in 0..loads.len() {
        total += u128::from(weights[h]) * loads[h];
    }
    total
}

/// The mean of the usages, each by the weight and the capacity of its link, in millionths, rounded down.
fn mean_usage(net: &Network, weights: &[u64], loads: &[u128]) -> u128
    requires network { IsTrue (is_well_formed net.now) }
    requires count { length weights.now ≡ link_count net.now }
    requires weights { AreWeightsUpTo (2 ^ 27) weights.now }
    requires loads { AreLoadsWithin net.now loads.now }
    ensures { result ≡ mean_of net.now weights.now loads.now }
{
    let volume = capacity_by(net, weights).max(1);
    load_by(weights, loads) * u128::from(RATIO_UNIT) / volume
}

/// The usage in the middle of those of all links.
///
/// `weights` and `loads` have one number for each link. Takes no memory.
pub fn spread_of(net: &Network, weights: &[u64], loads: &[u128]) -> UsageSpread
    requires network { IsTrue (is_well_formed net.now) }
    requires count { length weights.now ≡ link_count net.now }
    requires weights { AreWeightsUpTo (2 ^ 27) weights.now }
    requires loads { AreLoadsWithin net.now loads.now }
    ensures spread { IsUsageSpread result }
    ensures exact { result ≡ spread_by net.now weights.now loads.now }
{
    let most = greatest_usage(net, loads);
    let mean = mean_usage(net, weights, loads).min(most);
    UsageSpread {
        mean,
        deviation: (most - mean).max(1),
    }
}
