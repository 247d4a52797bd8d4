//! The step of the rates of a pair, from its dear paths to its cheap ones.
ghost use Rattle.std.specs.Prelude.{◌≡◌, ◌≤◌, length, map, sum};
ghost use Rattle.std.specs.Int.{abs_diff};
ghost use Rattle.robust_routing.specs.Rates.{AreMoved, IsFirstGreatest, IsScaled, IsStep, deviation, mean_cost, part_of, rate_after};
ghost use Rattle.robust_routing.specs.Sweep.{IsSweep, capped};

use crate::sweep::{Sweep, WHOLE};
use te_model::number_at;

/// The mean of the costs by the rates.
pub fn mean_cost(costs: &[u64], rates: &[u64]) -> u64
    ensures { result ≡ mean_cost costs.now rates.now }
{
    let mut total: u128 = 0;
    for i in 0..costs.len() {
        let term = u128::from(costs[i]).saturating_mul(u128::from(number_at(rates, i)));
        total = total.saturating_add(term);
    }
    (total / u128::from(WHOLE)).min(u128::from(u64::MAX)) as u64
}

/// How far the cost of a path that has a rate lies from the mean at most, and at least a thousandth of the mean.
fn deviation(costs: &[u64], rates: &[u64], mean: u64) -> u64
    ensures exact { result ≡ deviation costs.now rates.now mean }
    ensures some { 1 ≤ result }
{
    let mut most = (mean / 1000).max(1);
    for i in 0..costs.len() {
        if number_at(rates, i) > 0 {
            most = most.max(costs[i].abs_diff(mean));
        }
    }
    most
}

/// The rate of a path after a step: more where it costs less than the mean, and less where it costs more.
fn rate_after(rate: u64, cost: u64, mean: u64, unit: u128) -> u64
    requires { 1 ≤ unit }
    ensures { result ≡ rate_after rate cost mean unit }
{
    let product = u128::from(rate).saturating_mul(u128::from(cost.abs_diff(mean)));
    let step = (product / unit).min(u128::from(rate)) as u64;
    if cost > mean {
        rate - step
    } else {
        rate.saturating_add(step)
    }
}

/// The sum of the rates.
fn total_of(rates: &[u64]) -> u64
    ensures { result ≡ capped (sum rates.now) }
{
    let mut total: u64 = 0;
    for rate in rates {
        total = total.saturating_add(*rate);
    }
    total
}

/// The part of the whole that the rate is of the total, and 0 where that is less than a millionth.
fn part_of(rate: u64, total: u64) -> u64
    requires { 1 ≤ total }
    ensures { result ≡ part_of total rate }
{
    let product = u128::from(rate).saturating_mul(u128::from(WHOLE));
    let part = (product / u128::from(total)).min(u128::from(WHOLE)) as u64;
    if part < WHOLE / 1_000_000 { 0 } else { part }
}

/// The place of the first of the greatest rates.
fn fastest(rates: &[u64]) -> usize
    ensures { IsFirstGreatest rates.now result }
{
    let mut place = 0;
    for i in 0..rates.len() {
        if rates[i] > number_at(rates, place) {
            place = i;
        }
    }
    place
}

/// Makes of each rate its part of the total.
fn divide(rates: &mut [u64], total: u64)
    requires { 1 ≤ total }
    ensures { rates.new ≡ map (part_of total) rates.old }
{
    for rate in rates.iter_mut() {
        *rate = part_of(*rate, total);
    }
}

/// Scales the rates to the whole, and leaves out those of less than a millionth. What is left goes to the first of the greatest.
pub fn level(rates: &mut [u64])
    ensures { IsScaled rates.old rates.new }
{
    let total = total_of(rates).max(1);
    divide(rates, total);
    let left = WHOLE.saturating_sub(total_of(rates));
    let place = fastest(rates);
    if place < rates.len() {
        rates[place] = rates[place].saturating_add(left);
    }
}

/// Moves each rate by the cost of its path.
fn move_each(costs: &[u64], mean: u64, unit: u128, rates: &mut [u64])
    requires { 1 ≤ unit }
    ensures { AreMoved costs.now rates.old mean unit rates.new }
{
    for i in 0..rates.len() {
        rates[i] = rate_after(rates[i], number_at(costs, i), mean, unit);
    }
}

/// Moves the rates by the costs of their paths, and scales them to the whole.
pub fn move_rates(sweep: Sweep, costs: &[u64], rates: &mut [u64])
    requires { IsSweep sweep }
    ensures { IsStep sweep costs.now rates.old rates.new }
{
    let mean = mean_cost(costs, rates);
    let unit = u128::from(2 * sweep.parts) * u128::from(deviation(costs, rates, mean));
    move_each(costs, mean, unit, rates);
    level(rates);
}
