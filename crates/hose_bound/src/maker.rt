//! Making a hose certificate of a routing.
ghost use Rattle.std.specs.Prelude.{◌≡◌, ℕ, ◌^◌, ◌<◌, ◌≤◌, All, IfOk, IsTrue, length};
ghost use Rattle.te_model.specs.Laws.{PairsJoinNodes};
ghost use Rattle.te_model.specs.Network.{is_well_formed, node_count, link_count};
ghost use Rattle.te_model.specs.PathRouting.{IsPathRouting};
ghost use Rattle.routing.specs.Shares.{AreShares};
ghost use Rattle.hose_bound.specs.Covering.{AreMadeBlocks, IsLeastBound};
ghost use Rattle.hose_bound.specs.Judging.{AreSmallAmounts, IsSmallBlock};
ghost use Rattle.hose_bound.specs.Making.{IsAttained, IsLeastBoundOf, IsMadeFor};
ghost use Rattle.hose_bound.specs.Rules.{IsValidHose};
ghost use Rattle.hose_bound.specs.Verdict.{pays_numbers};

use crate::covers::tight_cover;
use crate::hose::{Hose, HoseBlock, HoseCert};
use crate::sums::{block_sum, capacity_of};
use routing::{Routing, Shares};
use std::alloc::Global;
use te_model::{Items, Memory, Network, PairRoutes, RATIO_UNIT, SHARE_UNIT, ceil_div};

// A block for each link with a share.
fn made_blocks(
    alloc: Global,
    net: &Network,
    routes: &[PairRoutes],
    hose: &Hose,
    shares: &Shares,
) -> Result<Vec<HoseBlock>, Memory>
    requires network { IsTrue (is_well_formed net.now) }
    requires routing { IsPathRouting net.now routes.now }
    requires ends { PairsJoinNodes net.now routes.now }
    requires sent { length hose.now.sent ≡ node_count net.now }
    requires received { length hose.now.received ≡ node_count net.now }
    requires amounts { AreSmallAmounts hose.now }
    requires shares { AreShares net.now routes.now shares.now }
    ensures made { IfOk result (λ blocks. AreMadeBlocks net.now routes.now hose.now (link_count net.now) blocks.items) }
    ensures attained { IfOk result (λ blocks. All (IsAttained net.now routes.now hose.now) blocks.items) }
{
    let mut blocks = Vec::new(alloc);
    for e in 0..net.links.as_slice().len() {
        let link = e as u32;
        let list = shares.on(link);
        if list.len() > 0 {
            let block = tight_cover(alloc, net, routes, hose, link, list)?;
            blocks.push(block)?;
        }
    }
    Ok(blocks)
}

// The least bound that pays for the block on its link.
fn bound_of(net: &Network, hose: &Hose, block: &HoseBlock) -> u64
    requires network { IsTrue (is_well_formed net.now) }
    requires amounts { AreSmallAmounts hose.now }
    requires block { IsSmallBlock block.now }
    requires link { block.now.link < link_count net.now }
    ensures pays { IsTrue (pays_numbers net.now hose.now result block.now.link block.now) }
    ensures least { (other : ℕ) → IsTrue (pays_numbers net.now hose.now other block.now.link block.now) → result ≤ other }
    ensures small { result < 2 ^ 60 }
{
    let sum = block_sum(net.names.as_slice().len(), hose, block);
    let whole = SHARE_UNIT as u128 * capacity_of(net, block.link) as u128;
    ceil_div(RATIO_UNIT as u128 * sum, whole) as u64
}

// The least bound that pays for all blocks.
fn least_bound(net: &Network, hose: &Hose, blocks: &[HoseBlock]) -> u64
    requires network { IsTrue (is_well_formed net.now) }
    requires amounts { AreSmallAmounts hose.now }
    requires blocks { All IsSmallBlock blocks.now }
    requires links { All (λ b. b.link < link_count net.now) blocks.now }
    ensures bound { IsLeastBound net.now hose.now blocks.now result }
    ensures small { result < 2 ^ 60 }
{
    let mut bound = 0;
    for block in blocks {
        bound = bound.max(bound_of(net, hose, block));
    }
    bound
}

/// Makes a hose certificate of the routing: of each link with a share on it numbers that cover the shares and of which none
/// can be lowered by one, and which come to no more by the hose than the greatest shares of the sources alone, or of the
/// destinations alone; and the least bound that pays for them. No lower bound is true of the routing: some matrix within the hose
/// uses a link so much, rounded up to a millionth of its capacity. Which numbers it finds is not promised beyond that.
///
/// # Errors
///
/// Only `Memory`, where memory runs out.
pub fn make(alloc: Global, net: &Network, routing: &Routing, hose: Hose) -> Result<HoseCert, Memory>
    requires network { IsTrue (is_well_formed net.now) }
    requires routing { IsPathRouting net.now routing.now.routes }
    requires few { length routing.now.routes < 2 ^ 32 }
    requires pairs { PairsJoinNodes net.now routing.now.routes }
    requires hose { IsValidHose (node_count net.now) hose }
    ensures made { IfOk result (IsMadeFor net.now routing.now.routes hose) }
    ensures exact { IfOk result (λ c. IsLeastBoundOf net.now routing.now.routes hose c.bound) }
{
    let shares = Shares::new(alloc, net, routing)?;
    let blocks = made_blocks(alloc, net, routing.routes.as_slice(), &hose, &shares)?;
    let bound = least_bound(net, &hose, blocks.as_slice());
    Ok(HoseCert {
        hose,
        bound,
        blocks: Items::new(blocks),
    })
}
