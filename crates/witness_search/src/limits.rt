//! What no rival of a pair alone can pass: all that it sends leaves its source and enters its destination.
ghost use Rattle.std.specs.Prelude.{◌≡◌, ◌⊎◌, ℕ, ◌*◌, ◌^◌, ◌<◌, ◌≤◌, All, length, slice_index, sum_by};
ghost use Rattle.te_model.specs.declared.units.TheConstants.{RATIO_UNIT, SHARE_UNIT};
ghost use Rattle.te_model.specs.Network.{capacity_of, link_count};
ghost use Rattle.te_model.specs.Validity.{IsValidHead};
ghost use Rattle.witness_search.specs.Attempts.{IsLimit};
ghost use Rattle.ratio_checker.specs.Checked.{IsSimplePath};
ghost use Rattle.witness_search.specs.RouteLimits.{HasSmallLinks, IsRouteLimit};
ghost use Rattle.ratio_witness.specs.Witness.{capacity_from, capacity_into};

use crate::capacities::{capacity_from, capacity_into};
use ratio_checker::shares_by_link;
use te_model::{Head, Network, Pair, PairRoutes, RATIO_UNIT, SHARE_UNIT, ceil_div};

fn capacity_of(net: &Network, link: usize) -> u128
    requires { link < link_count net.now }
    ensures { result ≡ capacity_of net.now link }
{
    u128::from(net.links.as_slice()[link].capacity)
}

// The share of the link over its capacity, times the room, in millionths, rounded up.
fn room_over_capacity(net: &Network, shares: &[u64], room: u64, link: usize) -> u128
    requires links { HasSmallLinks net.now }
    requires link { link < link_count net.now }
    requires count { link_count net.now ≤ length shares.now }
    requires room { room ≤ 2 ^ 42 }
    requires shares { slice_index shares.now link ≤ SHARE_UNIT }
    ensures { RATIO_UNIT * (room * slice_index shares.now link) ≤ result * (SHARE_UNIT * capacity_of net.now link) }
{
    let share = u128::from(shares[link]);
    let part = u128::from(room) * share;
    let over = u128::from(RATIO_UNIT) * part;
    let under = u128::from(SHARE_UNIT) * capacity_of(net, link);
    ceil_div(over, under)
}

fn greater(a: u128, b: u128) -> u128
    ensures first { a ≤ result }
    ensures second { b ≤ result }
{
    if a < b { b } else { a }
}

fn lesser(a: u64, b: u64) -> u64
    ensures { (result ≡ a) ⊎ (result ≡ b) }
{
    if b < a { b } else { a }
}

// The greatest of these numbers.
fn greatest_over_capacity(net: &Network, shares: &[u64], room: u64) -> u128
    requires links { HasSmallLinks net.now }
    requires count { link_count net.now ≤ length shares.now }
    requires room { room ≤ 2 ^ 42 }
    requires shares { (e : ℕ) → slice_index shares.now e ≤ SHARE_UNIT }
    ensures { (e : ℕ) → e < link_count net.now →
        RATIO_UNIT * (room * slice_index shares.now e) ≤ result * (SHARE_UNIT * capacity_of net.now e) }
{
    let count = net.links.as_slice().len();
    let mut greatest = 0;
    for h in 0..count {
        greatest = greater(greatest, room_over_capacity(net, shares, room, h));
    }
    greatest
}

// What the links that leave the source of the pair carry, or those that lead to its destination, whichever is less.
fn room_of(net: &Network, pair: Pair) -> u64
    requires { HasSmallLinks net.now }
    ensures one { (result ≡ capacity_from net.now pair.src) ⊎ (result ≡ capacity_into net.now pair.dst) }
    ensures small { result ≤ 2 ^ 42 }
{
    lesser(capacity_from(net, pair.src), capacity_into(net, pair.dst))
}

// The limit of a pair with these paths.
fn limit_of_route(net: &Network, route: &PairRoutes) -> u128
    requires links { HasSmallLinks net.now }
    requires paths { All IsSimplePath route.now.paths }
    requires whole { sum_by (λ s. s.weight) route.now.paths ≤ SHARE_UNIT }
    ensures { IsRouteLimit net.now route.now result }
{
    let room = room_of(net, route.pair);
    let shares = shares_by_link(route.paths.as_slice());
    greatest_over_capacity(net, &shares, room)
}

/// No rival of the pair alone shows more than this, in millionths: the greatest over the links of the pair's share, over the
/// capacity, times what the links at one of its ends carry, rounded up.
pub fn limit_of(head: &Head, pair: usize) -> u128
    requires head { IsValidHead head.now }
    requires pair { pair < length head.now.routes }
    ensures { IsLimit head.now pair result }
{
    let routes = head.routes.as_slice();
    limit_of_route(&head.network, &routes[pair])
}
