//! How multipliers grow with the loads of a round.
ghost use Rattle.std.specs.Prelude.{◌≡◌, ◌+◌, ◌*◌, ◌/◌, ◌<◌, ◌≤◌, ◌^◌, All, IfOk, IsTrue, length};
ghost use Rattle.te_model.specs.Network.{is_well_formed, link_count};
ghost use Rattle.te_model.specs.declared.units.TheConstants.{RATIO_UNIT};
ghost use Rattle.te_model.specs.Division.{quotient_up};
ghost use Rattle.multiplicative_lengths.specs.Growth.{greatest_usage, grown_multipliers};

use std::alloc::Global;
use te_model::{Memory, Network, RATIO_UNIT, ceil_div};

/// The load over the capacity, in millionths, rounded down.
fn usage_of(load: u64, capacity: u64) -> u128
    requires { 1 ≤ capacity }
    ensures usage { result ≡ load * RATIO_UNIT / capacity }
    ensures small { result < 2 ^ 84 }
{
    u128::from(load) * u128::from(RATIO_UNIT) / u128::from(capacity)
}

/// The greatest usage of a link, in millionths, rounded down, and at least 1.
///
/// `loads` has one number for each link. Takes no memory.
pub fn greatest_usage(net: &Network, loads: &[u64]) -> u128
    requires network { IsTrue (is_well_formed net.now) }
    requires count { length loads.now ≡ link_count net.now }
    ensures usage { result ≡ greatest_usage net.now loads.now }
    ensures small { result < 2 ^ 84 }
{
    let links = net.links.as_slice();
    let mut most = 1;
    for h in 0..links.len() {
        most = most.max(usage_of(loads[h], links[h].capacity));
    }
    most
}

/// The multiplier and its part by the usage over the divisor, rounded up.
fn grown_multiplier(multiplier: u64, usage: u128, divisor: u128) -> u64
    requires multiplier { multiplier ≤ 2 ^ 38 }
    requires small { usage < 2 ^ 84 }
    requires some { 1 ≤ divisor }
    requires usage { usage ≤ divisor }
    ensures { result ≡ multiplier + quotient_up (multiplier * usage) divisor }
{
    let part = ceil_div(u128::from(multiplier) * usage, divisor);
    multiplier + part as u64
}

/// The multipliers of the next round: each grows by itself times the usage of its link over the
/// divisor, rounded up. So a multiplier at most doubles.
///
/// `loads` and `multipliers` have one number for each link, and the divisor is at least the greatest
/// usage, in millionths. A multiplier of 1024 is at most 2^38 after 28 rounds. `Memory` comes where
/// memory is wanting.
pub fn grow(
    alloc: Global,
    net: &Network,
    loads: &[u64],
    divisor: u128,
    multipliers: &[u64],
) -> Result<Vec<u64>, Memory>
    requires network { IsTrue (is_well_formed net.now) }
    requires loads { length loads.now ≡ link_count net.now }
    requires divisor { greatest_usage net.now loads.now ≤ divisor }
    requires count { length multipliers.now ≡ link_count net.now }
    requires moderate { All (λ m. m ≤ 2 ^ 38) multipliers.now }
    ensures { IfOk result (λ m. m.items ≡ grown_multipliers net.now loads.now divisor multipliers.now) }
{
    let links = net.links.as_slice();
    let mut next = Vec::with_capacity(alloc, links.len())?;
    for h in 0..links.len() {
        let usage = usage_of(loads[h], links[h].capacity);
        next.push(grown_multiplier(multipliers[h], usage, divisor))?;
    }
    Ok(next)
}
