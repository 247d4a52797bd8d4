//! The least ways by cost from each node to one.
ghost use Rattle.std.specs.Prelude.{◌≡◌, ◌<◌, Some, None, IfOk, IsTrue, MatchOption};
ghost use Rattle.te_model.specs.Network.{is_well_formed, node_count};
ghost use Rattle.shortest_path.specs.declared.rows.Direction.TheVariants.{Backward};
ghost use Rattle.shortest_path.specs.Links.{HasSoundLinks};
ghost use Rattle.shortest_path.specs.Rows.{IsSearchGraph};
ghost use Rattle.shortest_path.specs.Ways.{AreWays, IsLeastWay};

use crate::cost::costs;
use crate::searches::Searches;
use crate::walk::{first_links, walk_along};
use std::alloc::Global;
use te_model::{Items, Memory, Network};

/// The least sums of costs from each node to one, and the links with which the least ways there begin.
#[derive(Drop)]
pub struct Ways {
    /// The node to which the ways lead.
    pub dst: u32,
    /// The cost of each link.
    pub costs: Items<u64>,
    /// The least sum of costs from each node, or `None` where no way leads from it.
    pub sums: Items<Option<u64>>,
    /// The first link of the least way from each node that has one.
    pub firsts: Items<Option<u32>>,
}

/// The least ways to a node. The searches are against links in the network.
///
/// `Memory` comes where memory is wanting.
pub fn ways_to(
    alloc: Global,
    net: &Network,
    searches: &mut Searches,
    dst: u32,
) -> Result<Ways, Memory>
    requires network { IsTrue (is_well_formed net.now) }
    requires against { IsSearchGraph net.now Backward searches.old }
    requires dst { dst < node_count net.now }
    ensures ways { IfOk result (λ w. AreWays net.now w) }
    ensures dst { IfOk result (λ w. w.dst ≡ dst) }
    ensures same { searches.new ≡ searches.old }
{
    let costs = costs(alloc, net)?;
    let every = vec![in alloc; true; net.links.as_slice().len()]?;
    let mut sums: Vec<Option<u64>> = vec![in alloc; None; net.names.as_slice().len()]?;
    searches.toward(net, &costs, &every, dst, &mut sums);
    let firsts = first_links(alloc, net, &costs, &every, &sums)?;
    Ok(Ways {
        dst,
        costs: Items::new(costs),
        sums: Items::new(sums),
        firsts: Items::new(firsts),
    })
}

/// The least way from a node, or `None` exactly where none leads to the destination.
///
/// `Memory` comes where memory is wanting.
pub fn way_from(
    alloc: Global,
    net: &Network,
    ways: &Ways,
    src: u32,
) -> Result<Option<Vec<u32>>, Memory>
    requires sound { HasSoundLinks net.now }
    requires ways { AreWays net.now ways.now }
    requires src { src < node_count net.now }
    ensures { IfOk result (λ w. MatchOption w (IsLeastWay net.now ways.now src None) (λ v. IsLeastWay net.now ways.now src (Some v.items))) }
{
    walk_along(
        alloc,
        net,
        ways.sums.as_slice(),
        ways.firsts.as_slice(),
        src,
        ways.dst,
    )
}
