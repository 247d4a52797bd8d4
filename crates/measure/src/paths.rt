//! The four least paths of pairs of the network, and the least path alone.
ghost use Rattle.std.specs.Prelude.{◌≡◌, ◌<◌, ◌≤◌, IsTrue};
ghost use Rattle.te_model.specs.Network.{is_well_formed, node_count};
ghost use Rattle.scheme.specs.Reach.{ArePairsOf};

use crate::pairs::pairs_from;
use k_paths::k_least;
use scheme::SchemeFault;
use shortest_path::{costs, least_path};
use std::alloc::Global;
use te_model::{Memory, Network, Pairs};

const PATHS: u32 = 4;

// How many paths the pairs have, up to four each.
fn paths_of_pairs(alloc: Global, net: &Network, pairs: &Pairs) -> Result<u64, Memory>
    requires network { IsTrue (is_well_formed net.now) }
    requires pairs { ArePairsOf net.now pairs.now.list }
{
    let mut count = 0u64;
    for pair in pairs.list.as_slice() {
        let paths = k_least(alloc, net, pair.src, pair.dst, PATHS)?;
        count = count.wrapping_add(paths.len() as u64);
    }
    Ok(count)
}

/// How many paths, up to four each, the pairs of the first `sources` nodes have.
pub fn paths_of_sources(alloc: Global, net: &Network, sources: u32) -> Result<u64, SchemeFault>
    requires network { IsTrue (is_well_formed net.now) }
    requires nodes { node_count net.now ≡ 64 }
    requires sources { sources ≤ 64 }
{
    let pairs = pairs_from(alloc, net, sources)?;
    Ok(paths_of_pairs(alloc, net, &pairs)?)
}

// How many links the least paths of the pairs have.
fn links_of_pairs(alloc: Global, net: &Network, pairs: &Pairs) -> Result<u64, Memory>
    requires network { IsTrue (is_well_formed net.now) }
    requires pairs { ArePairsOf net.now pairs.now.list }
{
    let lengths = costs(alloc, net)?;
    let mut count = 0u64;
    for pair in pairs.list.as_slice() {
        if let Some(path) = least_path(alloc, net, &lengths, pair.src, pair.dst)? {
            count = count.wrapping_add(path.links.as_slice().len() as u64);
        }
    }
    Ok(count)
}

/// How many links the least paths of the pairs of the first `sources` nodes have.
pub fn links_of_least_paths(alloc: Global, net: &Network, sources: u32) -> Result<u64, SchemeFault>
    requires network { IsTrue (is_well_formed net.now) }
    requires nodes { node_count net.now ≡ 64 }
    requires sources { sources ≤ 64 }
{
    let pairs = pairs_from(alloc, net, sources)?;
    Ok(links_of_pairs(alloc, net, &pairs)?)
}
