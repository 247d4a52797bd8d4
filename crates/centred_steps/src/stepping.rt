//! Steps of weights.
ghost use Rattle.std.specs.Prelude.{◌≡◌, ℕ, ◌*◌, ◌^◌, ◌<◌, ◌≤◌, IsTrue, length, slice_index, true};
ghost use Rattle.te_model.specs.Network.{is_well_formed, link_count};
ghost use Rattle.centred_steps.specs.Loads.{AreLoadsWithin};
ghost use Rattle.centred_steps.specs.Weights.{AreWeightsUpTo};

use crate::usage_spread::{spread_of, usage_of};
use te_model::{Network, ceil_div};

/// The weight of every link from which steps start.
pub const FIRST_WEIGHT: u64 = 1 << 20;

/// The weights are doubled where none is as great as this.
const SMALL_WEIGHT: u64 = 1 << 25;

/// The weights are halved where one is greater than this.
const MAX_WEIGHT: u64 = 1 << 27;

/// What a weight gains where the usage of its link lies so far above the middle: itself at most.
#[tactic(auto, using(crate::proofs::Products::usage_term))]
fn gain_of(weight: u64, above: u128, unit: u128) -> u64
    requires weight { weight ≤ 2 ^ 27 }
    requires above { above ≤ 2 ^ 86 }
    requires unit { 1 ≤ unit }
    ensures { result ≤ weight }
{
    let gain = ceil_div(u128::from(weight) * above, unit);
    gain.min(u128::from(weight)) as u64
}

/// What a weight loses where the usage of its link lies so far below the middle: its half at most.
#[tactic(auto, using(crate::proofs::Products::usage_term))]
fn loss_of(weight: u64, below: u128, unit: u128) -> u64
    requires weight { weight ≤ 2 ^ 27 }
    requires below { below ≤ 2 ^ 86 }
    requires unit { 1 ≤ unit }
    ensures { 2 * result ≤ weight }
{
    let loss = u128::from(weight) * below / unit;
    loss.min(u128::from(weight / 2)) as u64
}

/// The weight of a link of this usage, moved by how far the usage lies from the mean, in units.
fn moved_weight(weight: u64, usage: u128, mean: u128, unit: u128) -> u64
    requires weight { (1 ≤ weight) × (weight ≤ 2 ^ 27) }
    requires usage { usage ≤ 2 ^ 86 }
    requires mean { mean ≤ 2 ^ 86 }
    requires unit { 1 ≤ unit }
    ensures { (1 ≤ result) × (result ≤ 2 ^ 28) }
{
    if usage >= mean {
        weight + gain_of(weight, usage - mean, unit)
    } else {
        weight - loss_of(weight, mean - usage, unit)
    }
}

/// Moves each weight by the usage of its link.
fn move_each(net: &Network, weights: &mut [u64], loads: &[u128], divisor: u64)
    requires network { IsTrue (is_well_formed net.now) }
    requires count { length weights.old ≡ link_count net.now }
    requires weights { AreWeightsUpTo (2 ^ 27) weights.old }
    requires loads { AreLoadsWithin net.now loads.now }
    requires divisor { (1 ≤ divisor) × (divisor ≤ 128) }
    ensures { AreWeightsUpTo (2 ^ 28) weights.new }
{
    let spread = spread_of(net, weights, loads);
    let unit = u128::from(divisor) * spread.deviation;
    let links = net.links.as_slice();
    for h in 0..links.len() {
        let usage = usage_of(loads[h], links[h].capacity);
        weights[h] = moved_weight(weights[h], usage, spread.mean, unit);
    }
}

/// The greatest of the weights, or 0 where there are none.
fn greatest(weights: &[u64]) -> u64
    ensures { (h : ℕ) → h < length weights.now → slice_index weights.now h ≤ result }
{
    let mut most = 0;
    for weight in weights {
        most = most.max(*weight);
    }
    most
}

/// The double of the weight, or its half, rounded up.
fn double_or_half(weight: u64, doubles: bool) -> u64
    requires weight { (1 ≤ weight) × (weight ≤ 2 ^ 28) }
    requires small { doubles ≡ true → weight ≤ 2 ^ 26 }
    ensures { (1 ≤ result) × (result ≤ 2 ^ 27) }
{
    if doubles {
        weight * 2
    } else {
        (weight + 1) / 2
    }
}

/// Doubles each of the weights, or halves it, rounding up.
fn level_each(weights: &mut [u64], doubles: bool)
    requires weights { AreWeightsUpTo (2 ^ 28) weights.old }
    requires small { doubles ≡ true → AreWeightsUpTo (2 ^ 26) weights.old }
    ensures { AreWeightsUpTo (2 ^ 27) weights.new }
{
    for weight in weights.iter_mut() {
        *weight = double_or_half(*weight, doubles);
    }
}

/// Doubles the weights where all are small, and halves them where one is too great. Only their quotients say something.
fn level(weights: &mut [u64])
    requires { AreWeightsUpTo (2 ^ 28) weights.old }
    ensures { AreWeightsUpTo (2 ^ 27) weights.new }
{
    let most = greatest(weights);
    if most < SMALL_WEIGHT {
        level_each(weights, true);
    } else if most > MAX_WEIGHT {
        level_each(weights, false);
    }
}

/// Moves each weight by how far the usage of its link lies from the mean of all: a weight grows above it, at most to its double,
/// and falls below it, at most to its half. That of the most used link grows by itself over the divisor.
///
/// `weights` and `loads` have one number for each link. The weights stay from 1 to 2^27. Takes no memory.
pub fn step_weights(net: &Network, weights: &mut [u64], loads: &[u128], divisor: u64)
    requires network { IsTrue (is_well_formed net.now) }
    requires count { length weights.old ≡ link_count net.now }
    requires weights { AreWeightsUpTo (2 ^ 27) weights.old }
    requires loads { AreLoadsWithin net.now loads.now }
    requires divisor { (1 ≤ divisor) × (divisor ≤ 128) }
    ensures count { length weights.new ≡ length weights.old }
    ensures weights { AreWeightsUpTo (2 ^ 27) weights.new }
{
    move_each(net, weights, loads, divisor);
    level(weights);
}
