//! The need of weights and of blocks.
ghost use Rattle.std.specs.Prelude.{◌≡◌, ◌*◌, ◌^◌, ◌<◌, ◌≤◌, ℕ, All, IsTrue, length, slice_index};
ghost use Rattle.te_model.specs.declared.limits.TheConstants.{FORMAT_2};
ghost use Rattle.te_model.specs.Network.{is_well_formed, link_count, capacity_of};
ghost use Rattle.te_model.specs.Validity.{has_block_numbers, has_small_numbers};
ghost use Rattle.best_blocks.specs.Need.{need_by, need_of, HasNumbers, IsGreatestNeed, IsNeed};

use crate::scaling::Scale;
use te_model::{Block, Network, RATIO_UNIT, SHARE_UNIT, capacity_by, ceil_div};

/// What small weights need. One side is divided, so that every product fits.
#[tactic(auto, using(crate::proofs::Sizes::sizes))]
fn need_within(net: &Network, link: u32, weights: &[u64], scale: Scale) -> u128
    requires link { link < link_count net.now }
    requires links { link_count net.now ≤ FORMAT_2.links }
    requires capacities { (h : ℕ) → capacity_of net.now h ≤ 2 ^ 32 }
    requires capacity { 1 ≤ capacity_of net.now link }
    requires weights { (h : ℕ) → slice_index weights.now h ≤ 2 ^ 28 }
    requires a { scale.a ≤ 2 ^ 36 }
    requires b { (1 ≤ scale.b) × (scale.b ≤ 2 ^ 36) }
    ensures { result ≡ need_by net.now link weights.now scale.a scale.b }
{
    let capacity = net.links.as_slice()[link as usize].capacity;
    let cost = scale.a as u128 * RATIO_UNIT as u128 * capacity_by(net, weights);
    let unit = scale.b as u128 * SHARE_UNIT as u128 * capacity as u128;
    ceil_div(cost, unit)
}

/// The least ratio, in millionths, that pays for weights of at most 2^28 of the link, scaled by `a / b`. Takes no memory.
pub fn need_by(net: &Network, link: u32, weights: &[u64], scale: Scale) -> u128
    requires network { IsTrue (is_well_formed net.now) }
    requires link { link < link_count net.now }
    requires weights { (h : ℕ) → slice_index weights.now h ≤ 2 ^ 28 }
    requires a { scale.a ≤ 2 ^ 36 }
    requires b { (1 ≤ scale.b) × (scale.b ≤ 2 ^ 36) }
    ensures { result ≡ need_by net.now link weights.now scale.a scale.b }
{
    need_within(net, link, weights, scale)
}

/// The need of a valid block of the network: the least ratio, in millionths, that pays for its
/// weights. Takes no memory.
pub fn need(net: &Network, block: &Block) -> u128
    requires network { IsTrue (is_well_formed net.now) }
    requires numbers { IsTrue (has_block_numbers net.now block.now) }
    requires small { IsTrue (has_small_numbers net.now block.now) }
    requires weights { length block.now.weights ≡ link_count net.now }
    ensures need { IsNeed net.now block.now result }
    ensures value { result ≡ need_of net.now block.now }
{
    let scale = Scale {
        a: block.a,
        b: block.b,
    };
    need_by(net, block.link, block.weights.as_slice(), scale)
}

/// The greatest need of the blocks, in millionths, or 0 where there are none. Takes no memory.
pub fn greatest_need(net: &Network, blocks: &[Block]) -> u128
    requires network { IsTrue (is_well_formed net.now) }
    requires numbers { All (HasNumbers net.now) blocks.now }
    ensures { IsGreatestNeed net.now blocks.now result }
{
    let mut most = 0;
    for block in blocks {
        most = most.max(need(net, block));
    }
    most
}
