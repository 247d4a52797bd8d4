//! The decomposition tree of a network.
ghost use Rattle.std.specs.Prelude.{◌≡◌, ◌^◌, ◌≤◌, IfOk, IsTrue, All, length};
ghost use Rattle.te_model.specs.Network.{is_well_formed, link_count};
ghost use Rattle.tree_embed.specs.Embedding.{IsOrder};

use crate::centers::{TOP_LEVEL, centers_of};
use crate::chain::{center_in, chain_of};
use crate::first_links::firsts_of;
use crate::join::{join, least};
use crate::sums::sums_of;
use routing::cut_loops;
use std::alloc::Global;
use std::marker::Model;
use te_model::{Items, Memory, Network, Path, copy_network};

/// A decomposition tree, which contracts see as its network, lengths, order and scale. `embed` makes it.
#[derive(Drop)]
pub struct Tree {
    network: Network,
    lengths: Items<u64>,
    order: Items<u32>,
    scale: u32,
    /// For each node the least sums of lengths from all nodes to it.
    sums: Items<Items<Option<u64>>>,
    /// For each node the first links of the least paths from all nodes to it.
    firsts: Items<Items<Option<u32>>>,
    /// For each level the centers of all nodes.
    centers: Items<Items<u32>>,
}

impl Model for Tree {
    ghost use Rattle.tree_embed.specs.Embedding.{Embedding};
    ghost use Rattle.tree_embed.specs.Tables.{AreFirsts, AreTables};

    ghost Value = { Embedding };

    ghost view = { λ t. record { network = t.network; lengths = t.lengths; order = t.order; scale = t.scale } };

    ghost invariant = { λ t. AreTables (record { network = t.network; lengths = t.lengths; order = t.order; scale = t.scale }) t.sums t.centers × AreFirsts t.network t.lengths t.sums t.firsts };
}

/// The tree of the network with a length for each link, an order of the nodes, and a scale of 16 to 31
/// sixteenths. Lengths are 1 to 2^28.
///
/// `Memory` comes where memory is wanting.
pub fn embed(
    alloc: Global,
    net: &Network,
    lengths: &[u64],
    order: &[u32],
    scale: u32,
) -> Result<Tree, Memory>
    requires network { IsTrue (is_well_formed net.now) }
    requires lengths { length lengths.now ≡ link_count net.now }
    requires limit { All (λ l. l ≤ 2 ^ 28) lengths.now }
    requires positive { All (λ l. 1 ≤ l) lengths.now }
    requires order { IsOrder net.now order.now }
    requires scale { (16 ≤ scale) × (scale ≤ 31) }
    ensures { IfOk result (λ t. t ≡ record { network = net.now; lengths = lengths.now; order = order.now; scale = scale }) }
{
    let sums = sums_of(alloc, net, lengths)?;
    let firsts = firsts_of(alloc, net, lengths, &sums)?;
    let centers = centers_of(alloc, &sums, order, scale)?;
    let network = copy_network(alloc, net)?;
    let lengths = Vec::from_slice(alloc, lengths)?;
    let order = Vec::from_slice(alloc, order)?;
    Ok(Tree {
        network,
        lengths: Items::new(lengths),
        order: Items::new(order),
        scale,
        sums: Items::new(sums),
        firsts: Items::new(firsts),
        centers: Items::new(centers),
    })
}

impl Tree {
    ghost use Rattle.std.specs.Prelude.{◌≢◌, ◌<◌, IfNone, IfSome};
    ghost use Rattle.te_model.specs.Network.{node_count};
    ghost use Rattle.te_model.specs.Path.{is_path};
    ghost use Rattle.shortest_path.specs.Least.{links_of};
    ghost use Rattle.shortest_path.specs.Paths.{HasPath};
    ghost use Rattle.tree_embed.specs.Centers.{IsCenter};
    ghost use Rattle.tree_embed.specs.TreePaths.{IsTreePath};

    /// The network that the tree is of.
    pub fn network(&self) -> &Network
        ensures { result.now ≡ self.now.network }
    {
        &self.network
    }

    /// The center of the node at the level: the first node in the order within the level's radius of
    /// it, by the greater of the least sums of lengths there and back; and at `TOP_LEVEL` the first node
    /// in the order. Takes no memory.
    pub fn center(&self, level: u32, node: u32) -> u32
        requires level { level ≤ TOP_LEVEL }
        requires node { node < node_count self.now.network }
        ensures center { IsCenter self.now level node result }
        ensures inside { result < node_count self.now.network }
    {
        center_in(self.centers.as_slice(), level, node)
    }

    /// The path of the tree from `src` to `dst`, or `None` exactly where no path leads there: the least
    /// paths by the tree's lengths between neighbours in the chain of centers, one after the other and
    /// without loops; and where one of these least paths does not exist, the least path from `src` to
    /// `dst`. `net` is the tree's own network.
    ///
    /// `Memory` comes where memory is wanting.
    pub fn tree_path(
        &self,
        alloc: Global,
        net: &Network,
        src: u32,
        dst: u32,
    ) -> Result<Option<Path>, Memory>
        requires own { self.now.network ≡ net.now }
        requires src { src < node_count net.now }
        requires dst { dst < node_count net.now }
        requires apart { src ≢ dst }
        ensures tree { IfOk result (λ p. IsTreePath self.now src dst (links_of p)) }
        ensures path { IfOk result (λ p. IfSome p (λ q. IsTrue (is_path net.now src dst q.links))) }
        ensures none { IfOk result (λ p. IfNone p (HasPath net.now src dst → ⊥)) }
    {
        let chain = chain_of(alloc, self.centers.as_slice(), src, dst)?;
        let sums = self.sums.as_slice();
        let firsts = self.firsts.as_slice();
        match join(alloc, net, sums, firsts, &chain)? {
            Some(walk) => {
                let links = cut_loops(alloc, net, src, &walk)?;
                Ok(Some(Path {
                    links: Items::new(links),
                }))
            }
            None => least(alloc, net, sums, firsts, src, dst),
        }
    }
}
