//! One round of the mix.
ghost use Rattle.std.specs.Prelude.{◌≡◌, ◌+◌, ◌<◌, ◌≤◌, ◌^◌, All, IfOk, IsTrue, OnOk, length};
ghost use Rattle.te_model.specs.Network.{is_well_formed, link_count, node_count};
ghost use Rattle.te_model.specs.declared.limits.TheConstants.{FORMAT_2};
ghost use Rattle.racke_mix.specs.Mix.{IsTreeRound};

use crate::drawing::{draw_order, draw_scale};
use multiplicative_lengths::lengths_of;
use rand_chacha::ChaCha8Rng;
use std::alloc::Global;
use te_model::{Items, Memory, Network};
use tree_embed::{Tree, embed};

/// A round of the mix: what its tree is made of, and the tree.
#[derive(Drop)]
pub struct Round {
    /// One for each link, 1 to 2^28.
    pub lengths: Items<u64>,
    /// The nodes, in the order that was drawn.
    pub order: Items<u32>,
    /// In sixteenths, 16 to 31.
    pub scale: u32,
    pub tree: Tree,
}

/// The round of the multipliers, with an order and a scale by the next words.
///
/// `multipliers` has one number for each link. `Memory` comes where memory is wanting.
pub fn draw_round(
    alloc: Global,
    net: &Network,
    rng: &mut ChaCha8Rng,
    multipliers: &[u64],
) -> Result<Round, Memory>
    requires network { IsTrue (is_well_formed net.now) }
    requires room { rng.old.word_pos + FORMAT_2.nodes + 1 < 2 ^ 68 }
    requires count { length multipliers.now ≡ link_count net.now }
    requires some { All (λ m. 1 ≤ m) multipliers.now }
    ensures round { IfOk result (IsTreeRound net.now rng.old multipliers.now) }
    ensures state { OnOk result (rng.new ≡ record rng.old { word_pos = rng.old.word_pos + (node_count net.now + 1) }) }
{
    let lengths = lengths_of(alloc, net, multipliers)?;
    let order = draw_order(alloc, rng, net.names.as_slice().len())?;
    let scale = draw_scale(rng);
    let tree = embed(alloc, net, &lengths, &order, scale)?;
    Ok(Round {
        lengths: Items::new(lengths),
        order: Items::new(order),
        scale,
        tree,
    })
}
