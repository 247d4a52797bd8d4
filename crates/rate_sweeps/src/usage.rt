//! Lengths that are great on the most used links.
ghost use Rattle.std.specs.Prelude.{◌≡◌, ◌*◌, ◌/◌, ◌^◌, ◌<◌, ◌≤◌, ℕ, All, IfOk, IsTrue, length, max, slice_index};
ghost use Rattle.te_model.specs.Network.{capacity_of, is_well_formed, link_count};
ghost use Rattle.multiplicative_lengths.specs.Growth.{for_each_link};
ghost use Rattle.centred_steps.specs.Weights.{AreWeightsUpTo};
ghost use Rattle.rate_sweeps.specs.Lengths.{greatest_number, length_at_price, lengths_at_prices, lengths_under, loads_by_capacity, part_of, price_of, repeated_square};

use std::alloc::Global;
use te_model::{Memory, Network};

/// The usage of the most used links, to which all are scaled.
const WHOLE: u128 = 1 << 30;

/// The greatest length.
const MAX_LENGTH: u128 = 1 << 27;

/// The greatest capacity of a link.
const MAX_CAPACITY: u128 = 1 << 32;

/// The greatest of the numbers, and at least 1.
pub fn greatest_number(numbers: &[u128]) -> u128
    ensures some { 1 ≤ result }
    ensures greatest { result ≡ greatest_number numbers.now }
{
    let mut most = 1;
    for number in numbers {
        most = most.max(*number);
    }
    most
}

/// The load of each link over its capacity, rounded down.
///
/// `loads` has one number for each link. `Memory` comes where memory is wanting.
pub fn loads_by_capacity(alloc: Global, net: &Network, loads: &[u128]) -> Result<Vec<u128>, Memory>
    requires network { IsTrue (is_well_formed net.now) }
    requires count { length loads.now ≡ link_count net.now }
    requires small { All (λ x. x < 2 ^ 84) loads.now }
    ensures count { IfOk result (λ u. length u.items ≡ link_count net.now) }
    ensures small { IfOk result (λ u. All (λ x. x < 2 ^ 84) u.items) }
    ensures usage { IfOk result (λ u. u.items ≡ loads_by_capacity net.now loads.now) }
{
    let links = net.links.as_slice();
    let mut usage = Vec::with_capacity(alloc, links.len())?;
    for h in 0..links.len() {
        usage.push(loads[h] / u128::from(links[h].capacity))?;
    }
    Ok(usage)
}

/// The part of the greatest usage, squared so many times: the same for the most used links, and less for all others.
#[tactic(auto, using(crate::proofs::Squares::square_fits))]
fn squared_part(usage: u128, most: u128, squarings: u32) -> u128
    requires usage { usage < 2 ^ 84 }
    requires most { 1 ≤ most }
    ensures small { result ≤ 2 ^ 30 }
    ensures part { result ≡ repeated_square squarings (part_of most usage) }
{
    let mut part = (usage * WHOLE / most).min(WHOLE);
    for _ in 0..squarings {
        part = part * part / WHOLE;
    }
    part
}

/// The part of the greatest usage over the capacity of the link.
fn price_of(part: u128, capacity: u64) -> u128
    requires part { part ≤ 2 ^ 30 }
    requires capacity { 1 ≤ capacity }
    ensures small { result ≤ 2 ^ 62 }
    ensures price { result ≡ max 1 part * 2 ^ 32 / capacity }
{
    part.max(1) * MAX_CAPACITY / u128::from(capacity)
}

/// The squared usage of each link over its capacity.
fn prices_of(
    alloc: Global,
    net: &Network,
    usage: &[u128],
    squarings: u32,
) -> Result<Vec<u128>, Memory>
    requires network { IsTrue (is_well_formed net.now) }
    requires count { length usage.now ≡ link_count net.now }
    requires small { All (λ x. x < 2 ^ 84) usage.now }
    ensures count { IfOk result (λ p. length p.items ≡ link_count net.now) }
    ensures small { IfOk result (λ p. All (λ x. x ≤ 2 ^ 62) p.items) }
    ensures prices { IfOk result (λ p. p.items ≡ for_each_link net.now (price_of net.now usage.now squarings)) }
{
    let most = greatest_number(usage);
    let links = net.links.as_slice();
    let mut prices = Vec::with_capacity(alloc, links.len())?;
    for h in 0..links.len() {
        let part = squared_part(usage[h], most, squarings);
        prices.push(price_of(part, links[h].capacity))?;
    }
    Ok(prices)
}

/// The length of this price: 1 at least, and 2^27 for the greatest price.
fn length_of(price: u128, most: u128) -> u64
    requires price { price ≤ 2 ^ 62 }
    requires most { 1 ≤ most }
    ensures limits { (1 ≤ result) × (result ≤ 2 ^ 27) }
    ensures length { result ≡ length_at_price most price }
{
    (price * MAX_LENGTH / most).max(1).min(MAX_LENGTH) as u64
}

/// The lengths of links by their prices.
fn lengths_of(alloc: Global, prices: &[u128]) -> Result<Vec<u64>, Memory>
    requires small { All (λ x. x ≤ 2 ^ 62) prices.now }
    ensures count { IfOk result (λ l. length l.items ≡ length prices.now) }
    ensures lengths { IfOk result (λ l. AreWeightsUpTo (2 ^ 27) l.items) }
    ensures exact { IfOk result (λ l. l.items ≡ lengths_at_prices prices.now) }
{
    let most = greatest_number(prices);
    let mut lengths = Vec::with_capacity(alloc, prices.len())?;
    for price in prices {
        lengths.push(length_of(*price, most))?;
    }
    Ok(lengths)
}

/// Lengths that are great on the most used links, and the greater the more so the more often usages are squared.
///
/// `loads` has one number for each link. The lengths lie from 1 to 2^27. `Memory` comes where memory is wanting.
pub fn lengths_under(
    alloc: Global,
    net: &Network,
    loads: &[u128],
    squarings: u32,
) -> Result<Vec<u64>, Memory>
    requires network { IsTrue (is_well_formed net.now) }
    requires count { length loads.now ≡ link_count net.now }
    requires small { All (λ x. x < 2 ^ 84) loads.now }
    ensures count { IfOk result (λ l. length l.items ≡ link_count net.now) }
    ensures lengths { IfOk result (λ l. AreWeightsUpTo (2 ^ 27) l.items) }
    ensures exact { IfOk result (λ l. l.items ≡ lengths_under net.now loads.now squarings) }
{
    let usage = loads_by_capacity(alloc, net, loads)?;
    let prices = prices_of(alloc, net, &usage, squarings)?;
    lengths_of(alloc, &prices)
}
