//! What the links put on the paths of a tree.
ghost use Rattle.std.specs.Prelude.{◌≡◌, ◌+◌, ◌<◌, ◌≤◌, ◌^◌, ℕ, List, IfOk, IsTrue, OnOk, Some, length, slice_index};
ghost use Rattle.te_model.specs.Network.{capacity_of, head_of, is_well_formed, link_count, tail_of};
ghost use Rattle.te_model.specs.Path.{amount_on};
ghost use Rattle.tree_embed.specs.TreePaths.{IsTreePath};
ghost use Rattle.racke_mix.specs.Mix.{AreTreeLoads};

use multiplicative_lengths::add_along;
use std::alloc::Global;
use te_model::{Memory, Network};
use tree_embed::Tree;

/// Adds the capacity of a link to the load of each link of the tree path between its ends.
fn add_link(
    alloc: Global,
    net: &Network,
    tree: &Tree,
    h: usize,
    loads: &mut [u64],
) -> Result<(), Memory>
    requires network { IsTrue (is_well_formed net.now) }
    requires own { tree.now.network ≡ net.now }
    requires link { h < link_count net.now }
    requires count { length loads.old ≡ link_count net.now }
    requires small { (e : ℕ) → slice_index loads.old e ≤ 2 ^ 42 }
    ensures { OnOk result ((path : List ℕ) × IsTreePath tree.now (tail_of net.now h) (head_of net.now h) (Some path) × ((e : ℕ) → slice_index loads.new e ≡ slice_index loads.old e + amount_on path (capacity_of net.now h) e)) }
{
    let link = net.links.as_slice()[h];
    match tree.tree_path(alloc, net, link.tail, link.head)? {
        Some(path) => {
            add_along(loads, path.links.as_slice(), link.capacity);
            Ok(())
        }
        // The link itself leads from its tail to its head.
        None => Ok(()),
    }
}

/// The loads of the tree, one for each link: each link puts its capacity on every link of the tree
/// path between its ends.
///
/// `Memory` comes where memory is wanting.
pub fn loads_of(alloc: Global, net: &Network, tree: &Tree) -> Result<Vec<u64>, Memory>
    requires network { IsTrue (is_well_formed net.now) }
    requires own { tree.now.network ≡ net.now }
    ensures { IfOk result (λ l. AreTreeLoads net.now tree.now l.items) }
{
    let links = net.links.as_slice();
    let mut loads = vec![in alloc; 0; links.len()]?;
    for h in 0..links.len() {
        add_link(alloc, net, tree, h, &mut loads)?;
    }
    Ok(loads)
}
