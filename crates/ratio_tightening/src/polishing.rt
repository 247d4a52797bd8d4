//! The polish of blocks: the first block that needs most takes finer forms until it is fine, and then better weights while there are any.
ghost use Rattle.std.specs.Prelude.{◌≡◌, ◌<◌, All, IfOk, IfSome, IfNone, OnOk, IsTrue, length};
ghost use Rattle.te_model.specs.Network.{is_well_formed};
ghost use Rattle.te_model.specs.Validity.{block_at};
ghost use Rattle.best_blocks.specs.Conditions.{IsRoutingWithin, IsSetWithin};
ghost use Rattle.best_blocks.specs.Need.{HasNumbers};
ghost use Rattle.ratio_certificate.specs.Polished.{HasNoBetterChange, IsFine, IsWorstBlock};
ghost use Rattle.ratio_tightening.specs.Polishing.{AreReached, CanPolish, IsDone, IsStep};

use crate::finer::finer_block;
use best_blocks::need;
use ratio_certificate::{better_block, is_fine};
use routing::Routing;
use std::alloc::Global;
use te_model::{Block, DemandSet, Memory, Network};

// The first of the blocks that need most, or `None` where there is none.
fn worst_block(net: &Network, blocks: &[Block]) -> Option<usize>
    requires network { IsTrue (is_well_formed net.now) }
    requires blocks { All (HasNumbers net.now) blocks.now }
    ensures some { IfSome result (IsWorstBlock net.now blocks.now) }
    ensures none { IfNone result (length blocks.now ≡ 0) }
{
    if blocks.len() == 0 {
        return None;
    }
    let mut place = 0;
    for k in 0..blocks.len() {
        if need(net, &blocks[place]) < need(net, &blocks[k]) {
            place = k;
        }
    }
    Some(place)
}

// A step of the block at a place.
#[derive(Drop)]
struct Step {
    place: usize,
    block: Block,
}

// A step of the block at the place, or `None` where it is fine and no change of one weight lowers its need by a 64th.
fn step_at(
    alloc: Global,
    net: &Network,
    routing: &Routing,
    set: &DemandSet,
    block: &Block,
    place: usize,
) -> Result<Option<Step>, Memory>
    requires network { IsTrue (is_well_formed net.now) }
    requires routing { IsRoutingWithin net.now routing.now.routes }
    requires set { IsSetWithin (length routing.now.routes) set.now }
    requires block { CanPolish net.now routing.now.routes block.now }
    ensures place { IfOk result (λ o. IfSome o (λ s. s.place ≡ place)) }
    ensures some { IfOk result (λ o. IfSome o (λ s. IsStep net.now routing.now.routes set.now block.now s.block)) }
    ensures fine { IfOk result (λ o. IfNone o (IsFine block.now.weights block.now.b)) }
    ensures none { IfOk result (λ o. IfNone o (HasNoBetterChange net.now routing.now.routes set.now block.now)) }
{
    if !is_fine(block.weights.as_slice(), block.b) {
        let block = finer_block(alloc, block)?;
        return Ok(Some(Step { place, block }));
    }
    match better_block(alloc, net, routing, set, block)? {
        Some(block) => Ok(Some(Step { place, block })),
        None => Ok(None),
    }
}

// A step of the first of the blocks that need most, or `None` where they are done.
fn next_step(
    alloc: Global,
    net: &Network,
    routing: &Routing,
    set: &DemandSet,
    blocks: &[Block],
) -> Result<Option<Step>, Memory>
    requires network { IsTrue (is_well_formed net.now) }
    requires routing { IsRoutingWithin net.now routing.now.routes }
    requires set { IsSetWithin (length routing.now.routes) set.now }
    requires blocks { All (CanPolish net.now routing.now.routes) blocks.now }
    ensures place { IfOk result (λ o. IfSome o (λ s. s.place < length blocks.now)) }
    ensures some { IfOk result (λ o. IfSome o (λ s. IsStep net.now routing.now.routes set.now (block_at blocks.now s.place) s.block)) }
    ensures none { IfOk result (λ o. IfNone o (IsDone net.now routing.now.routes set.now blocks.now)) }
{
    match worst_block(net, blocks) {
        Some(k) => step_at(alloc, net, routing, set, &blocks[k], k),
        None => Ok(None),
    }
}

/// Polishes the blocks: puts in place of the first that needs most its finer form or the best block of a better change, until
/// there is none.
pub fn polish_blocks(
    alloc: Global,
    net: &Network,
    routing: &Routing,
    set: &DemandSet,
    blocks: &mut [Block],
) -> Result<(), Memory>
    requires network { IsTrue (is_well_formed net.now) }
    requires routing { IsRoutingWithin net.now routing.now.routes }
    requires set { IsSetWithin (length routing.now.routes) set.now }
    requires blocks { All (CanPolish net.now routing.now.routes) blocks.old }
    ensures reached { OnOk result (AreReached net.now routing.now.routes set.now blocks.old blocks.new) }
    ensures done { OnOk result (IsDone net.now routing.now.routes set.now blocks.new) }
{
    loop {
        match next_step(alloc, net, routing, set, blocks)? {
            Some(step) => {
                blocks[step.place] = step.block;
            }
            None => return Ok(()),
        }
    }
}
