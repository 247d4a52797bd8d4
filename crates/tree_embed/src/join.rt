//! The least paths between neighbours of a chain, joined.
ghost use Rattle.std.specs.Prelude.{◌≡◌, ℕ, ◌<◌, All, IfOk, List, length, option_map};
ghost use Rattle.te_model.specs.Network.{node_count};
ghost use Rattle.shortest_path.specs.Least.{links_of};
ghost use Rattle.shortest_path.specs.Links.{HasSoundLinks};
ghost use Rattle.shortest_path.specs.Paths.{IsLeastPath};
ghost use Rattle.tree_embed.specs.Tables.{LeadBetween};
ghost use Rattle.tree_embed.specs.TreePaths.{IsJoin};

use shortest_path::walk_along;
use std::alloc::Global;
use te_model::{Items, Memory, Network, Path};

/// The least path from one node to another, or `None` where no path leads there.
pub fn least(
    alloc: Global,
    net: &Network,
    sums: &[Items<Option<u64>>],
    firsts: &[Items<Option<u32>>],
    src: u32,
    dst: u32,
) -> Result<Option<Path>, Memory>
    requires sound { HasSoundLinks net.now }
    requires lead { (lengths : List ℕ) × LeadBetween net.now lengths sums.now firsts.now }
    requires src { src < node_count net.now }
    requires dst { dst < node_count net.now }
    ensures { (lengths : List ℕ) → LeadBetween net.now lengths sums.now firsts.now → IfOk result (λ p. IsLeastPath net.now lengths src dst (links_of p)) }
{
    let to = sums[dst as usize].as_slice();
    let along = firsts[dst as usize].as_slice();
    match walk_along(alloc, net, to, along, src, dst)? {
        Some(walk) => Ok(Some(Path {
            links: Items::new(walk),
        })),
        None => Ok(None),
    }
}

/// The least paths between neighbours of the chain, one after the other, or `None` where one of them
/// does not exist.
pub fn join(
    alloc: Global,
    net: &Network,
    sums: &[Items<Option<u64>>],
    firsts: &[Items<Option<u32>>],
    chain: &[u32],
) -> Result<Option<Vec<u32>>, Memory>
    requires sound { HasSoundLinks net.now }
    requires lead { (lengths : List ℕ) × LeadBetween net.now lengths sums.now firsts.now }
    requires chain { All (λ v. v < node_count net.now) chain.now }
    ensures { (lengths : List ℕ) → LeadBetween net.now lengths sums.now firsts.now → IfOk result (λ walk. IsJoin net.now lengths chain.now (option_map (λ v. v.items) walk)) }
{
    let mut walk = Vec::new(alloc);
    for i in 1..chain.len() {
        match least(alloc, net, sums, firsts, chain[i - 1], chain[i])? {
            Some(path) => walk.extend_from_slice(path.links.as_slice())?,
            None => return Ok(None),
        }
    }
    Ok(Some(walk))
}
