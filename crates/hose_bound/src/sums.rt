//! H2: what the numbers of a link come to by the hose, and what the bound pays for.
ghost use Rattle.std.specs.Prelude.{◌≡◌, ◌+◌, ◌*◌, ◌^◌, ◌<◌, ◌≤◌, length, slice_index, nat_le};
ghost use Rattle.te_model.specs.declared.limits.TheConstants.{FORMAT_2};
ghost use Rattle.te_model.specs.declared.units.TheConstants.{RATIO_UNIT, SHARE_UNIT};
ghost use Rattle.te_model.specs.Network.{node_count, link_count, capacity_of};
ghost use Rattle.hose_bound.specs.Judging.{AreSmallAmounts, IsSmallBlock};
ghost use Rattle.hose_bound.specs.Verdict.{block_sum, pays_numbers};

use crate::hose::{Hose, HoseBlock};
use te_model::{Network, RATIO_UNIT, SHARE_UNIT, number_at};

// What node i gives to the sum.
#[tactic(auto, using(crate::proofs::Sizes::sizes))]
fn node_sum(hose: &Hose, block: &HoseBlock, i: usize) -> u128
    requires amounts { AreSmallAmounts hose.now }
    requires block { IsSmallBlock block.now }
    ensures sum { result ≡ slice_index hose.now.sent i * slice_index block.now.tails i + slice_index hose.now.received i * slice_index block.now.heads i }
    ensures small { result ≤ 2 ^ 33 * SHARE_UNIT }
{
    let sent = number_at(hose.sent.as_slice(), i) as u128;
    let tail = number_at(block.tails.as_slice(), i) as u128;
    let received = number_at(hose.received.as_slice(), i) as u128;
    let head = number_at(block.heads.as_slice(), i) as u128;
    sent * tail + received * head
}

// What the numbers of the block come to by the hose.
pub fn block_sum(nodes: usize, hose: &Hose, block: &HoseBlock) -> u128
    requires nodes { nodes ≤ FORMAT_2.nodes }
    requires amounts { AreSmallAmounts hose.now }
    requires block { IsSmallBlock block.now }
    ensures sum { result ≡ block_sum nodes hose.now block.now }
    ensures small { result < 2 ^ 60 }
{
    let mut sum = 0;
    for i in 0..nodes {
        sum += node_sum(hose, block, i);
    }
    sum
}

// What the link carries.
pub fn capacity_of(net: &Network, link: u32) -> u64
    requires { link < link_count net.now }
    ensures { result ≡ capacity_of net.now link }
{
    net.links.as_slice()[link as usize].capacity
}

// The bound pays for the numbers of the block on the link.
#[tactic(auto, using(crate::proofs::Sizes::sizes))]
pub fn pays_numbers(net: &Network, hose: &Hose, bound: u64, link: u32, block: &HoseBlock) -> bool
    requires nodes { node_count net.now ≤ FORMAT_2.nodes }
    requires amounts { AreSmallAmounts hose.now }
    requires block { IsSmallBlock block.now }
    requires link { link < link_count net.now }
    requires capacity { capacity_of net.now link ≤ 2 ^ 32 }
    ensures { result ≡ pays_numbers net.now hose.now bound link block.now }
{
    let sum = block_sum(net.names.as_slice().len(), hose, block);
    let whole = SHARE_UNIT as u128 * capacity_of(net, link) as u128;
    RATIO_UNIT as u128 * sum <= whole * bound as u128
}
