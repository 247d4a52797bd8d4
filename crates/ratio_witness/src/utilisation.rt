//! How many times the greatest utilisation by some loads that by others is.
ghost use Rattle.std.specs.Prelude.{◌≡◌, ◌*◌, ◌<◌, ◌≤◌, if◌then◌else◌, nat_lt, slice_index};
ghost use Rattle.te_model.specs.Network.{capacity_of, link_count};
ghost use Rattle.te_model.specs.Division.{quotient_up};
ghost use Rattle.ratio_witness.specs.Judged.{AreLinkLoads};
ghost use Rattle.ratio_witness.specs.Witness.{most_used_link, utilisation_ratio};

use te_model::{Network, RATIO_UNIT, ceil_div};

fn capacity_of(net: &Network, link: usize) -> u128
    requires { link < link_count net.now }
    ensures { result ≡ capacity_of net.now link }
{
    u128::from(net.links.as_slice()[link].capacity)
}

// The second link, where its load over its capacity is greater, and else the first.
fn more_used_link(net: &Network, loads: &[u128], first: usize, second: usize) -> usize
    requires first { first < link_count net.now }
    requires second { second < link_count net.now }
    requires loads { AreLinkLoads net.now loads.now }
    ensures more { result ≡ (if nat_lt (slice_index loads.now first * capacity_of net.now second)
        (slice_index loads.now second * capacity_of net.now first) then second else first) }
    ensures within { result < link_count net.now }
{
    let of_first = loads[first] * capacity_of(net, second);
    let of_second = loads[second] * capacity_of(net, first);
    if of_first < of_second { second } else { first }
}

// The first of the links with the greatest load over its capacity.
fn most_used_link(net: &Network, loads: &[u128]) -> usize
    requires some { 1 ≤ link_count net.now }
    requires loads { AreLinkLoads net.now loads.now }
    ensures most { result ≡ most_used_link net.now (slice_index loads.now) (link_count net.now) }
    ensures within { result < link_count net.now }
{
    let count = net.links.as_slice().len();
    let mut most = 0;
    for h in 0..count {
        most = more_used_link(net, loads, most, h);
    }
    most
}

// The quotient, rounded up, and 0 where the divisor is 0.
fn quotient_up(over: u128, under: u128) -> u128
    ensures { result ≡ quotient_up over under }
{
    if under == 0 { 0 } else { ceil_div(over, under) }
}

/// How many times the greatest utilisation by the second loads that by the first is, in millionths, rounded up, and 0 where
/// the second have none. Each has a load for each link.
pub fn utilisation_ratio(net: &Network, loads: &[u128], by_rival: &[u128]) -> u128
    requires some { 1 ≤ link_count net.now }
    requires loads { AreLinkLoads net.now loads.now }
    requires rival { AreLinkLoads net.now by_rival.now }
    ensures { result ≡ utilisation_ratio net.now (slice_index loads.now) (slice_index by_rival.now) }
{
    let e = most_used_link(net, loads);
    let h = most_used_link(net, by_rival);
    let capacity = u128::from(RATIO_UNIT) * capacity_of(net, h);
    let over = capacity * loads[e];
    let under = by_rival[h] * capacity_of(net, e);
    quotient_up(over, under)
}
