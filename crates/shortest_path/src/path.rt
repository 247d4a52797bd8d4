//! The least path between two nodes.
ghost use Rattle.std.specs.Prelude.{◌≡◌, ◌≢◌, ◌^◌, ◌<◌, ◌≤◌, IfOk, IsTrue, All, length};
ghost use Rattle.te_model.specs.Network.{is_well_formed, node_count, link_count};
ghost use Rattle.shortest_path.specs.Least.{links_of};
ghost use Rattle.shortest_path.specs.Paths.{IsLeastPath};

use crate::walk::least_walk;
use std::alloc::Global;
use te_model::{Memory, Network, Path};

/// The least path from `src` to `dst` by the sum of lengths, then by the list of link numbers, or
/// `None` exactly where no list of links chains from `src` to `dst`.
///
/// `lengths` has one length for each link. `Memory` comes where memory is wanting.
pub fn least_path(
    alloc: Global,
    net: &Network,
    lengths: &[u64],
    src: u32,
    dst: u32,
) -> Result<Option<Path>, Memory>
    requires network { IsTrue (is_well_formed net.now) }
    requires lengths { length lengths.now ≡ link_count net.now }
    requires limit { All (λ l. l ≤ 2 ^ 28) lengths.now }
    requires positive { All (λ l. 1 ≤ l) lengths.now }
    requires src { src < node_count net.now }
    requires dst { dst < node_count net.now }
    requires apart { src ≢ dst }
    ensures { IfOk result (λ p. IsLeastPath net.now lengths.now src dst (links_of p)) }
{
    let every = vec![in alloc; true; net.links.as_slice().len()]?;
    let path = least_walk(alloc, net, lengths, &every, src, dst)?;
    Ok(path)
}
