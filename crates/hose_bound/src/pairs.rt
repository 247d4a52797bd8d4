//! H1: the numbers at the ends of each pair cover its share on each link.
ghost use Rattle.std.specs.Prelude.{◌≡◌, ℕ, ◌+◌, ◌<◌, ◌≤◌, length, slice_index, nat_le, All};
ghost use Rattle.te_model.specs.declared.limits.TheConstants.{FORMAT_2};
ghost use Rattle.te_model.specs.declared.units.TheConstants.{SHARE_UNIT};
ghost use Rattle.te_model.specs.Counting.{first_below, unless};
ghost use Rattle.te_model.specs.Path.{weight_on, routes_at};
ghost use Rattle.routing.specs.Split.{total_weight};
ghost use Rattle.ratio_checker.specs.Ascending.{AscendsFrom};
ghost use Rattle.ratio_checker.specs.Checked.{IsSimplePath};
ghost use Rattle.hose_bound.specs.Judging.{IsSmallBlock, IsFirstUncoveredPair, fault_of_pairs};
ghost use Rattle.hose_bound.specs.Verdict.{hose_block_of, covers_pair};

use crate::blocks::blocks_after;
use crate::hose::HoseBlock;
use ratio_checker::shares_by_link;
use te_model::{InequalityFault, Pair, PairRoutes, number_at};

// A link, and a pair whose share on it is not covered.
#[derive(Clone, Copy)]
pub struct UncoveredPair {
    pub link: u32,
    pub pair: u64,
}

// The numbers at the ends of the pair cover the share.
fn covers_ends(block: &HoseBlock, pair: Pair, share: u64) -> bool
    requires { IsSmallBlock block.now }
    ensures { result ≡ nat_le share (slice_index block.now.tails pair.src + slice_index block.now.heads pair.dst) }
{
    let tail = number_at(block.tails.as_slice(), pair.src as usize);
    let head = number_at(block.heads.as_slice(), pair.dst as usize);
    share <= tail + head
}

// The share of the pair on the link, whose block is the first if it is there, is covered.
fn covers_on_link(
    routes: &[PairRoutes],
    blocks: &[HoseBlock],
    link: u32,
    p: usize,
    share: u64,
) -> bool
    requires blocks { All IsSmallBlock blocks.now }
    requires ascend { AscendsFrom (λ b. b.link) link blocks.now }
    requires pair { p < length routes.now }
    requires share { share ≡ weight_on (routes_at routes.now p).paths link }
    ensures { result ≡ covers_pair routes.now link (hose_block_of blocks.now link) p }
{
    match blocks.first() {
        Some(block) if block.link == link => covers_ends(block, routes[p].pair, share),
        _ => share == 0,
    }
}

// The first link below the limit on which the share of the pair is not covered.
fn uncovered_link(
    routes: &[PairRoutes],
    blocks: &[HoseBlock],
    p: usize,
    limit: usize,
) -> Option<u32>
    requires blocks { All IsSmallBlock blocks.now }
    requires ascend { AscendsFrom (λ b. b.link) 0 blocks.now }
    requires pair { p < length routes.now }
    requires paths { All IsSimplePath (routes_at routes.now p).paths }
    requires whole { total_weight (routes_at routes.now p).paths ≤ SHARE_UNIT }
    requires limit { limit ≤ FORMAT_2.links }
    ensures { result ≡ first_below limit (λ e. unless (covers_pair routes.now e (hose_block_of blocks.now e) p) e) }
{
    let shares = shares_by_link(routes[p].paths.as_slice());
    let mut rest = blocks;
    for e in 0..limit {
        let link = e as u32;
        if !covers_on_link(routes, rest, link, p, shares[e]) {
            return Some(link);
        }
        rest = blocks_after(rest, link);
    }
    None
}

// The first of so many links on which the share of some pair is not covered, and the first such pair.
pub fn first_uncovered(
    routes: &[PairRoutes],
    blocks: &[HoseBlock],
    links: usize,
) -> Option<UncoveredPair>
    requires blocks { All IsSmallBlock blocks.now }
    requires ascend { AscendsFrom (λ b. b.link) 0 blocks.now }
    requires paths { (p : ℕ) → p < length routes.now → All IsSimplePath (routes_at routes.now p).paths }
    requires whole { (p : ℕ) → p < length routes.now → total_weight (routes_at routes.now p).paths ≤ SHARE_UNIT }
    requires links { links ≤ FORMAT_2.links }
    ensures { IsFirstUncoveredPair routes.now blocks.now links (length routes.now) result }
{
    let mut first = None;
    let mut limit = links;
    for p in 0..routes.len() {
        if let Some(link) = uncovered_link(routes, blocks, p, limit) {
            first = Some(UncoveredPair {
                link,
                pair: p as u64,
            });
            limit = link as usize;
        }
    }
    first
}

// What fails of H1 on the link, where nothing fails of it on the links before.
pub fn fault_of_pairs(first: Option<UncoveredPair>, link: u32) -> Option<InequalityFault>
    ensures { result ≡ fault_of_pairs first link }
{
    match first {
        Some(found) if found.link == link => Some(InequalityFault {
            number: 1,
            place: found.pair,
        }),
        _ => None,
    }
}
