//! The least path of a class where the least way over all links goes on from its prefix.
ghost use Rattle.std.specs.Prelude.{◌≡◌, ◌⊎◌, ◌^◌, ◌<◌, ◌≤◌, ℕ, All, Some, IfSome, MatchOption, length, slice_index_or};
ghost use Rattle.std.specs.List.{list_any};
ghost use Rattle.te_model.specs.Network.{link_count, node_count, no_link};
ghost use Rattle.shortest_path.specs.Links.{HasSoundLinks};
ghost use Rattle.shortest_path.specs.Ways.{AreWays};
ghost use Rattle.k_paths.specs.Outgoing.{AreOutgoing};
ghost use Rattle.k_paths.specs.Ways.{IsFirstLeast, is_visited, sum_over};

use crate::marks::{is_allowed, is_visited};
use crate::outgoing::Outgoing;
use shortest_path::Ways;
use te_model::{Link, Network};

/// The least sum of costs to the destination over a link, or `None` where no path that begins with the
/// prefix may go on from the node over it, or no way leads on.
fn sum_over(
    net: &Network,
    ways: &Ways,
    src: u32,
    prefix: &[u32],
    excluded: &[u32],
    node: u32,
    h: u32,
) -> Option<u128>
    requires sound { HasSoundLinks net.now }
    requires ways { AreWays net.now ways.now }
    requires prefix { All (λ k. k < link_count net.now) prefix.now }
    requires link { h < link_count net.now }
    ensures is { result ≡ sum_over net.now ways.now src prefix.now excluded.now node h }
    ensures small { IfSome result (λ x. x ≤ 2 ^ 65) }
{
    let links = net.links.as_slice();
    let link = links[h as usize];
    if link.tail == node && is_allowed(links, src, prefix, excluded, node, h) {
        let cost = ways.costs.as_slice()[h as usize];
        match ways.sums.as_slice()[link.head as usize] {
            Some(sum) => Some(u128::from(cost) + u128::from(sum)),
            None => None,
        }
    } else {
        None
    }
}

/// The link of the lesser sum, the first where the sums are equal.
fn lesser(best: Option<(u32, u128)>, h: u32, sum: u128) -> Option<(u32, u128)>
    ensures is { MatchOption best (result ≡ Some (h, sum)) (λ r. ((sum < r.1) × (result ≡ Some (h, sum))) ⊎ ((r.1 ≤ sum) × (result ≡ best))) }
    ensures small { (n : ℕ) → IfSome best (λ r. r.1 ≤ n) → sum ≤ n → IfSome result (λ r. r.1 ≤ n) }
{
    match best {
        None => Some((h, sum)),
        Some((_, least)) => { if sum < least { Some((h, sum)) } else { best } }
    }
}

/// The first link of the least sum, of those over which a path that begins with the prefix may go on,
/// with the sum.
pub fn first_link(
    net: &Network,
    ways: &Ways,
    outgoing: &Outgoing,
    src: u32,
    prefix: &[u32],
    excluded: &[u32],
    node: u32,
) -> Option<(u32, u128)>
    requires sound { HasSoundLinks net.now }
    requires ways { AreWays net.now ways.now }
    requires outgoing { AreOutgoing net.now outgoing.now }
    requires prefix { All (λ k. k < link_count net.now) prefix.now }
    requires node { node < node_count net.now }
    ensures first { IsFirstLeast (sum_over net.now ways.now src prefix.now excluded.now node) (link_count net.now) result }
    ensures small { IfSome result (λ r. r.1 ≤ 2 ^ 65) }
{
    let nexts = outgoing.nexts.as_slice();
    let mut best: Option<(u32, u128)> = None;
    let mut link = outgoing.firsts.as_slice()[node as usize];
    while (link as usize) < nexts.len() {
        if let Some(sum) = sum_over(net, ways, src, prefix, excluded, node, link) {
            best = lesser(best, link, sum);
        }
        link = nexts[link as usize];
    }
    best
}

/// Whether one of the links of the way leads to a node of the prefix.
pub fn meets(links: &[Link], src: u32, prefix: &[u32], way: &[u32]) -> bool
    requires prefix { All (λ k. k < length links.now) prefix.now }
    requires way { All (λ h. h < length links.now) way.now }
    ensures { result ≡ list_any (λ h. is_visited links.now src prefix.now (slice_index_or links.now h no_link).head) way.now }
{
    for h in way {
        let head = links[*h as usize].head;
        if is_visited(links, src, prefix, head) {
            return true;
        }
    }
    false
}
