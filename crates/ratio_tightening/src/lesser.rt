//! For each link the block of two lists that needs less.
ghost use Rattle.std.specs.Prelude.{◌≡◌, All, IfOk, IsTrue, map};
ghost use Rattle.te_model.specs.Network.{is_well_formed};
ghost use Rattle.best_blocks.specs.Need.{HasNumbers};
ghost use Rattle.ratio_tightening.specs.Tightened.{lesser_block, lesser_blocks, lesser_of};

use crate::copying::copy_of_block;
use best_blocks::need;
use std::alloc::Global;
use te_model::{Block, Memory, Network};

// The old block where it needs less than the made one, which it is otherwise.
fn lesser_of(alloc: Global, net: &Network, old: &Block, made: Block) -> Result<Block, Memory>
    requires network { IsTrue (is_well_formed net.now) }
    requires old { HasNumbers net.now old.now }
    requires made { HasNumbers net.now made }
    ensures { IfOk result (λ block. block ≡ lesser_of net.now old.now made) }
{
    if need(net, old) < need(net, &made) {
        copy_of_block(alloc, old)
    } else {
        Ok(made)
    }
}

// The old block of the link of the made one, where there is one and it needs less.
fn lesser_block(
    alloc: Global,
    net: &Network,
    blocks: &[Block],
    made: Block,
) -> Result<Block, Memory>
    requires network { IsTrue (is_well_formed net.now) }
    requires blocks { All (HasNumbers net.now) blocks.now }
    requires made { HasNumbers net.now made }
    ensures { IfOk result (λ block. block ≡ lesser_block net.now blocks.now made) }
{
    match blocks.iter().find(|old| old.link == made.link) {
        Some(old) => lesser_of(alloc, net, old, made),
        None => Ok(made),
    }
}

/// For each of the made blocks the old one of its link, where there is one and it needs less.
pub fn lesser_blocks(
    alloc: Global,
    net: &Network,
    blocks: &[Block],
    made: Vec<Block>,
) -> Result<Vec<Block>, Memory>
    requires network { IsTrue (is_well_formed net.now) }
    requires blocks { All (HasNumbers net.now) blocks.now }
    requires made { All (HasNumbers net.now) made.items }
    ensures { IfOk result (λ lesser. lesser.items ≡ lesser_blocks net.now blocks.now made.items) }
{
    let mut lesser = Vec::with_capacity(alloc, made.len())?;
    for block in made {
        lesser.push(lesser_block(alloc, net, blocks, block)?)?;
    }
    Ok(lesser)
}
