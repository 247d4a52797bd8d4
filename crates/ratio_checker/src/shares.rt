//! I2: the share of each pair on each link is covered by the distance from its source to its destination.
ghost use Rattle.std.specs.Prelude.{◌≡◌, ℕ, ◌^◌, ◌<◌, ◌≤◌, length, All, IsTrue};
ghost use Rattle.te_model.specs.declared.units.TheConstants.{SHARE_UNIT};
ghost use Rattle.te_model.specs.Counting.{first_below, unless};
ghost use Rattle.te_model.specs.Network.{link_count};
ghost use Rattle.te_model.specs.Path.{weight_on, routes_at};
ghost use Rattle.te_model.specs.Certificate.{block_of, potential};
ghost use Rattle.te_model.specs.Inequalities.{covers_share};
ghost use Rattle.te_model.specs.Bounds.{HasSmallNumbers};
ghost use Rattle.ratio_checker.specs.Ascending.{AscendsFrom};
ghost use Rattle.ratio_checker.specs.Checked.{CanCheckHead, CanCheckBlock};
ghost use Rattle.ratio_checker.specs.Uncovered.{covers_by, IsFirstUncovered, fault_on};

use crate::blocks::blocks_after;
use crate::link_shares::shares_by_link;
use crate::rows::potentials_of;
use te_model::{Block, Head, InequalityFault, Pair, number_at};

// A link, and a pair whose share on it is not covered.
#[derive(Clone, Copy)]
pub struct Uncovered {
    pub link: u32,
    pub pair: u64,
}

// A pair without a share on the link of the block is covered at any distance, where its minus is at most its plus.
#[tactic(auto, using(crate::proofs::Absent::covers_nothing))]
pub fn is_free(block: &Block, p: usize, share: u64) -> bool
    ensures { IsTrue result → (distance : ℕ) → IsTrue (covers_by block.now p share distance) }
{
    share == 0 && number_at(block.minus.as_slice(), p) <= number_at(block.plus.as_slice(), p)
}

// The distance from its source to its destination covers the share of the pair on the link of the block.
#[tactic(auto, using(crate::proofs::Sizes::sizes))]
pub fn covers(block: &Block, p: usize, share: u64, distance: u64) -> bool
    requires share { share ≤ SHARE_UNIT }
    requires block { HasSmallNumbers block.now }
    requires distance { distance ≤ 2 ^ 36 }
    ensures { result ≡ covers_by block.now p share distance }
{
    let plus = number_at(block.plus.as_slice(), p);
    let minus = number_at(block.minus.as_slice(), p);
    let left = share as u128 * block.b as u128 + block.a as u128 * minus as u128;
    let right = block.a as u128 * (distance as u128 + plus as u128);
    left <= right
}

// The share of the pair on the link of the block is covered. Most pairs have none, and then no potential is read.
fn covers_share(block: &Block, pair: Pair, p: usize, share: u64) -> bool
    requires share { share ≤ SHARE_UNIT }
    requires block { HasSmallNumbers block.now }
    requires rows { AscendsFrom (λ r. r.source) 0 block.now.rows }
    ensures { result ≡ covers_by block.now p share (potential block.now pair.src pair.dst) }
{
    if is_free(block, p, share) {
        return true;
    }
    let row = potentials_of(block.rows.as_slice(), pair.src);
    covers(block, p, share, number_at(row, pair.dst as usize))
}

// The share of the pair on the link, whose block is the first if it is there, is covered.
fn covers_link(head: &Head, blocks: &[Block], link: u32, p: usize, share: u64) -> bool
    requires head { CanCheckHead head.now }
    requires blocks { All (CanCheckBlock head.now) blocks.now }
    requires ascend { AscendsFrom (λ b. b.link) link blocks.now }
    requires pair { p < length head.now.routes }
    requires share { share ≡ weight_on (routes_at head.now.routes p).paths link }
    ensures { result ≡ covers_share head.now.routes (block_of blocks.now link) p }
{
    match blocks.first() {
        Some(block) if block.link == link => {
            covers_share(block, head.routes.as_slice()[p].pair, p, share)
        }
        _ => share == 0,
    }
}

// The first link below the limit on which the share of the pair is not covered.
fn uncovered_link(head: &Head, blocks: &[Block], p: usize, limit: usize) -> Option<u32>
    requires head { CanCheckHead head.now }
    requires blocks { All (CanCheckBlock head.now) blocks.now }
    requires ascend { AscendsFrom (λ b. b.link) 0 blocks.now }
    requires pair { p < length head.now.routes }
    requires limit { limit ≤ link_count head.now.network }
    ensures { result ≡ first_below limit (λ e. unless (covers_share head.now.routes (block_of blocks.now e) p) e) }
{
    let shares = shares_by_link(head.routes.as_slice()[p].paths.as_slice());
    let mut rest = blocks;
    for e in 0..limit {
        let link = e as u32;
        if !covers_link(head, rest, link, p, shares[e]) {
            return Some(link);
        }
        rest = blocks_after(rest, link);
    }
    None
}

// The first link on which the share of some pair is not covered, and the first such pair.
pub fn first_uncovered(head: &Head, blocks: &[Block]) -> Option<Uncovered>
    requires head { CanCheckHead head.now }
    requires blocks { All (CanCheckBlock head.now) blocks.now }
    requires ascend { AscendsFrom (λ b. b.link) 0 blocks.now }
    ensures { IsFirstUncovered head.now.routes blocks.now (link_count head.now.network) (length head.now.routes) result }
{
    let mut first = None;
    let mut limit = head.network.links.as_slice().len();
    for p in 0..head.routes.as_slice().len() {
        if let Some(link) = uncovered_link(head, blocks, p, limit) {
            first = Some(Uncovered {
                link,
                pair: p as u64,
            });
            limit = link as usize;
        }
    }
    first
}

// What fails of I2 on the link, where nothing fails of it on the links before.
pub fn fault_on(first: Option<Uncovered>, link: u32) -> Option<InequalityFault>
    ensures { result ≡ fault_on first link }
{
    match first {
        Some(found) if found.link == link => Some(InequalityFault {
            number: 2,
            place: found.pair,
        }),
        _ => None,
    }
}
