//! The next hops toward one node.
ghost use Rattle.std.specs.Prelude.{◌≡◌, ◌<◌, IfOk, IsTrue};
ghost use Rattle.te_model.specs.Network.{is_well_formed, node_count};
ghost use Rattle.shortest_path.specs.declared.rows.Direction.TheVariants.{Backward};
ghost use Rattle.shortest_path.specs.Rows.{IsSearchGraph};
ghost use Rattle.ecmp_split.specs.Hops.{AreNextHops};

use crate::least_cost::costs_to;
use crate::next::{NextLink, NextLinks, nearest_first, next_links};
use shortest_path::Searches;
use std::alloc::Global;
use te_model::{Items, Memory, Network};

/// What all pairs that send to one node share: the least costs to it, and the next links.
#[derive(Drop)]
pub struct NextHops {
    /// The least cost from each node, or `None` where no path leads to the destination.
    pub costs: Items<Option<u64>>,
    /// The next links, those of the nodes that are nearest to the destination first.
    pub links: Items<NextLink>,
    /// How many next links leave each node.
    pub counts: Items<u64>,
}

/// The next hops toward a node. The searches are against links in the network.
///
/// `Memory` comes where memory is wanting.
pub fn next_hops(
    alloc: Global,
    net: &Network,
    searches: &mut Searches,
    dst: u32,
) -> Result<NextHops, Memory>
    requires network { IsTrue (is_well_formed net.now) }
    requires against { IsSearchGraph net.now Backward searches.old }
    requires dst { dst < node_count net.now }
    ensures hops { IfOk result (AreNextHops net.now dst) }
    ensures same { searches.new ≡ searches.old }
{
    let costs = costs_to(alloc, net, searches, dst)?;
    let NextLinks { list, counts } = next_links(alloc, net, &costs)?;
    let links = nearest_first(list)?;
    Ok(NextHops {
        costs: Items::new(costs),
        links: Items::new(links),
        counts: Items::new(counts),
    })
}
