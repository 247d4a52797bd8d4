//! Better blocks: the changes of one weight of any given block.
ghost use Rattle.std.specs.Prelude.{◌≡◌, ◌*◌, ◌+◌, ◌/◌, ◌^◌, ◌<◌, ◌≤◌, ℕ, IfOk, IfSome, IfNone, IsTrue, length, slice_index, slice_set};
ghost use Rattle.te_model.specs.Network.{is_well_formed, link_count, node_count};
ghost use Rattle.best_blocks.specs.Conditions.{IsRoutingWithin, IsSetWithin};
ghost use Rattle.best_blocks.specs.Metric.{IsMetric};
ghost use Rattle.best_blocks.specs.Need.{HasNumbers};
ghost use Rattle.best_blocks.specs.Sharing.{HasShare};
ghost use Rattle.ratio_certificate.specs.Better.{IsBetterBlock};
ghost use Rattle.ratio_certificate.specs.BlockChanges.{AreBlockChanges, HelpsNotOn, IsBestIn, IsBetterIn, IsSettledOn};
ghost use Rattle.ratio_certificate.specs.Polished.{HasNoBetterChange, IsDoublingOrHalving};

use crate::changes::{MAX_DOUBLED, MIN_HALVED, improves};
use best_blocks::{
    Metric, SharedLink, best_block, link_with_shares, metric_after, metric_of, need,
};
use routing::Routing;
use std::alloc::Global;
use te_model::{Block, DemandSet, Memory, Network};

/// The changes of one weight of a block, by the shares on its link and the metric of its weights.
#[derive(Clone, Copy)]
struct BlockChanges<'a> {
    net: &'a Network,
    routing: &'a Routing,
    set: &'a DemandSet,
    block: &'a Block,
    shared: &'a SharedLink,
    metric: &'a Metric,
}

impl<'a> BlockChanges<'a> {
    /// The weights with another one on the link.
    fn weights_with(&self, alloc: Global, link: u32, weight: u64) -> Result<Vec<u64>, Memory>
        requires changes { AreBlockChanges self.now }
        requires link { link < link_count self.now.net.now }
        ensures { IfOk result (λ w. w.items ≡ slice_set self.now.block.now.weights link weight) }
    {
        let mut weights = Vec::from_slice(alloc, self.block.weights.as_slice())?;
        weights[link as usize] = weight;
        Ok(weights)
    }

    /// The metric of the weights with another one on the link.
    fn metric_with(&self, alloc: Global, link: u32, weight: u64) -> Result<Metric, Memory>
        requires changes { AreBlockChanges self.now }
        requires link { link < link_count self.now.net.now }
        requires weight { weight ≤ 2 ^ 28 }
        ensures metric { IfOk result (IsMetric self.now.net.now self.now.routing.now.routes self.now.shared.now.marks) }
        ensures weights { IfOk result (λ m. m.weights ≡ slice_set self.now.block.now.weights link weight) }
    {
        let weights = self.weights_with(alloc, link, weight)?;
        let mut searches = None;
        metric_after(
            alloc,
            self.net,
            self.routing,
            self.shared.marks.as_slice(),
            &mut searches,
            self.metric,
            &[link],
            weights,
        )
    }

    /// The best block of the weights with another one on the link, or `None` where there is none.
    fn block_with(&self, alloc: Global, link: u32, weight: u64) -> Result<Option<Block>, Memory>
        requires changes { AreBlockChanges self.now }
        requires link { link < link_count self.now.net.now }
        requires weight { weight ≤ 2 ^ 28 }
        ensures best { IfOk result (λ o. IfSome o (IsBestIn self.now link weight)) }
        ensures none { IfOk result (λ o. IfNone o ((b : Block) → IsBestIn self.now link weight b → ⊥)) }
    {
        let metric = self.metric_with(alloc, link, weight)?;
        best_block(
            alloc,
            self.net,
            self.routing,
            self.set,
            self.shared,
            &metric,
        )
    }

    /// The best block of the weights after a step of that of the link, if it improves the need.
    fn try_weight(&self, alloc: Global, link: u32, weight: u64) -> Result<Option<Block>, Memory>
        requires changes { AreBlockChanges self.now }
        requires link { link < link_count self.now.net.now }
        requires step { IsDoublingOrHalving (slice_index self.now.block.now.weights link) weight }
        ensures some { IfOk result (λ o. IfSome o (IsBetterIn self.now)) }
        ensures none { IfOk result (λ o. IfNone o (HelpsNotOn self.now link weight)) }
    {
        match self.block_with(alloc, link, weight)? {
            Some(other) => {
                if improves(need(self.net, self.block), need(self.net, &other)) {
                    Ok(Some(other))
                } else {
                    Ok(None)
                }
            }
            None => Ok(None),
        }
    }

    /// The best block of the weights with that of the link doubled, if that improves the need.
    fn try_double(&self, alloc: Global, link: u32) -> Result<Option<Block>, Memory>
        requires changes { AreBlockChanges self.now }
        requires link { link < link_count self.now.net.now }
        ensures some { IfOk result (λ o. IfSome o (IsBetterIn self.now)) }
        ensures none { IfOk result (λ o. IfNone o ((1 ≤ slice_index self.now.block.now.weights link) × (slice_index self.now.block.now.weights link ≤ 2 ^ 27) →
            HelpsNotOn self.now link (2 * slice_index self.now.block.now.weights link))) }
    {
        let weight = self.block.weights.as_slice()[link as usize];
        if weight >= 1 && weight <= MAX_DOUBLED {
            self.try_weight(alloc, link, 2 * weight)
        } else {
            Ok(None)
        }
    }

    /// The best block of the weights with that of the link halved and rounded up, if that improves the need.
    fn try_half(&self, alloc: Global, link: u32) -> Result<Option<Block>, Memory>
        requires changes { AreBlockChanges self.now }
        requires link { link < link_count self.now.net.now }
        ensures some { IfOk result (λ o. IfSome o (IsBetterIn self.now)) }
        ensures none { IfOk result (λ o. IfNone o (2 ≤ slice_index self.now.block.now.weights link →
            HelpsNotOn self.now link ((slice_index self.now.block.now.weights link + 1) / 2))) }
    {
        let weight = self.block.weights.as_slice()[link as usize];
        if weight >= MIN_HALVED {
            self.try_weight(alloc, link, (weight + 1) / 2)
        } else {
            Ok(None)
        }
    }

    /// The best block of the weights with that of the link doubled or halved, if one of these improves the need.
    fn try_link(&self, alloc: Global, link: u32) -> Result<Option<Block>, Memory>
        requires changes { AreBlockChanges self.now }
        requires link { link < link_count self.now.net.now }
        ensures some { IfOk result (λ o. IfSome o (IsBetterIn self.now)) }
        ensures none { IfOk result (λ o. IfNone o (IsSettledOn self.now link)) }
    {
        match self.try_double(alloc, link)? {
            Some(other) => Ok(Some(other)),
            None => self.try_half(alloc, link),
        }
    }

    /// The better block by the first link whose step improves the need, or `None` where no step does.
    fn find(&self, alloc: Global) -> Result<Option<Block>, Memory>
        requires changes { AreBlockChanges self.now }
        ensures some { IfOk result (λ o. IfSome o (IsBetterIn self.now)) }
        ensures none { IfOk result (λ o. IfNone o ((h : ℕ) → h < link_count self.now.net.now → IsSettledOn self.now h)) }
    {
        for h in 0..self.net.links.as_slice().len() {
            match self.try_link(alloc, h as u32)? {
                Some(other) => return Ok(Some(other)),
                None => {}
            }
        }
        Ok(None)
    }
}

/// The metric of the weights of the block.
fn metric_of_block(
    alloc: Global,
    net: &Network,
    routing: &Routing,
    shared: &SharedLink,
    block: &Block,
) -> Result<Metric, Memory>
    requires network { IsTrue (is_well_formed net.now) }
    requires marks { length shared.now.marks ≡ node_count net.now }
    requires numbers { HasNumbers net.now block.now }
    ensures metric { IfOk result (IsMetric net.now routing.now.routes shared.now.marks) }
    ensures weights { IfOk result (λ m. m.weights ≡ block.now.weights) }
{
    let weights = Vec::from_slice(alloc, block.weights.as_slice())?;
    metric_of(alloc, net, routing, shared.marks.as_slice(), weights)
}

/// A better block than the given one, which may be anybody's: the best block of the same link for its weights with one of them
/// changed, where that needs less by a 64th of the given block's need at least, or `None` exactly where no change of one weight
/// has such a block. A change doubles a weight of 1 to 2^27, or halves one of 2 or more and rounds it up.
///
/// It looks at two metrics for each link at most. `Memory` comes where memory is wanting.
pub fn better_block(
    alloc: Global,
    net: &Network,
    routing: &Routing,
    set: &DemandSet,
    block: &Block,
) -> Result<Option<Block>, Memory>
    requires network { IsTrue (is_well_formed net.now) }
    requires routing { IsRoutingWithin net.now routing.now.routes }
    requires set { IsSetWithin (length routing.now.routes) set.now }
    requires share { HasShare routing.now.routes block.now.link }
    requires numbers { HasNumbers net.now block.now }
    ensures better { IfOk result (λ o. IfSome o (IsBetterBlock net.now routing.now.routes set.now block.now)) }
    ensures numbers { IfOk result (λ o. IfSome o (HasNumbers net.now)) }
    ensures none { IfOk result (λ o. IfNone o (HasNoBetterChange net.now routing.now.routes set.now block.now)) }
{
    let shared = link_with_shares(alloc, net, routing, set, block.link)?;
    let metric = metric_of_block(alloc, net, routing, &shared, block)?;
    let changes = BlockChanges {
        net,
        routing,
        set,
        block,
        shared: &shared,
        metric: &metric,
    };
    changes.find(alloc)
}
