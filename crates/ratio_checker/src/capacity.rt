//! I4: the capacity of the link, times the ratio, pays for the weights.
ghost use Rattle.std.specs.Prelude.{◌≡◌, ℕ, ◌^◌, ◌<◌, ◌≤◌};
ghost use Rattle.te_model.specs.declared.limits.TheConstants.{FORMAT_2};
ghost use Rattle.te_model.specs.Network.{link_count, capacity_of};
ghost use Rattle.te_model.specs.Inequalities.{pays_weights};
ghost use Rattle.te_model.specs.Bounds.{HasSmallNumbers};

use te_model::{Block, Network, RATIO_UNIT, SHARE_UNIT, ceil_div, weighted_capacity};

// The ratio pays for the weights. The products of both sides would not fit 128 bits, so one side is divided.
#[tactic(auto, using(crate::proofs::Sizes::sizes))]
pub fn pays_weights(network: &Network, block: &Block, ratio: u64) -> bool
    requires link { block.now.link < link_count network.now }
    requires links { link_count network.now ≤ FORMAT_2.links }
    requires capacities { (h : ℕ) → capacity_of network.now h ≤ 2 ^ 32 }
    requires capacity { 1 ≤ capacity_of network.now block.now.link }
    requires block { HasSmallNumbers block.now }
    ensures { result ≡ pays_weights network.now block.now ratio }
{
    let capacity = network.links.as_slice()[block.link as usize].capacity;
    let cost = block.a as u128 * RATIO_UNIT as u128 * weighted_capacity(network, block);
    let unit = block.b as u128 * SHARE_UNIT as u128 * capacity as u128;
    ceil_div(cost, unit) <= ratio as u128
}
