//! Least walks from all nodes of the network to some: each with first links of its own, and by lent searches.
ghost use Rattle.std.specs.Prelude.{◌≡◌, ◌<◌, ◌≤◌, ◌^◌, All, IsTrue, length};
ghost use Rattle.te_model.specs.Network.{is_well_formed, link_count, node_count};
ghost use Rattle.shortest_path.specs.declared.rows.Direction.TheVariants.{Backward};
ghost use Rattle.shortest_path.specs.Links.{HasSoundLinks};
ghost use Rattle.shortest_path.specs.Rows.{IsSearchGraph};

use crate::network::NODES;
use scheme::SchemeFault;
use shortest_path::{Direction, Searches, costs, follow, toward, way_from, ways_to};
use std::alloc::Global;
use te_model::{Memory, Network};

// How many links the least walks to a node have by these lengths. Each is sought alone.
fn links_over(
    alloc: Global,
    net: &Network,
    lengths: &[u64],
    open: &[bool],
    dst: u32,
) -> Result<u64, Memory>
    requires sound { HasSoundLinks net.now }
    requires nodes { node_count net.now ≡ 64 }
    requires lengths { length lengths.now ≡ link_count net.now }
    requires marks { length «open».now ≡ link_count net.now }
    requires positive { All (λ l. 1 ≤ l) lengths.now }
    requires limit { All (λ l. l ≤ 2 ^ 28) lengths.now }
    requires dst { dst < 64 }
{
    let sums = toward(alloc, net, lengths, open, dst)?;
    let mut count = 0u64;
    for src in 0..NODES {
        if let Some(path) = follow(alloc, net, lengths, open, &sums, src, dst)? {
            count = count.wrapping_add(path.links.as_slice().len() as u64);
        }
    }
    Ok(count)
}

// How many links the least walks to a node have by cost. Each is sought alone.
fn links_to(alloc: Global, net: &Network, dst: u32) -> Result<u64, Memory>
    requires network { IsTrue (is_well_formed net.now) }
    requires nodes { node_count net.now ≡ 64 }
    requires dst { dst < 64 }
{
    let lengths = costs(alloc, net)?;
    let open = vec![in alloc; true; net.links.as_slice().len()]?;
    links_over(alloc, net, &lengths, &open, dst)
}

// The same by lent searches, with the first links of all walks at once.
fn links_by(alloc: Global, net: &Network, searches: &mut Searches, dst: u32) -> Result<u64, Memory>
    requires network { IsTrue (is_well_formed net.now) }
    requires nodes { node_count net.now ≡ 64 }
    requires against { IsSearchGraph net.now Backward searches.old }
    requires dst { dst < 64 }
    ensures { searches.new ≡ searches.old }
{
    let ways = ways_to(alloc, net, searches, dst)?;
    let mut count = 0u64;
    for src in 0..NODES {
        if let Some(walk) = way_from(alloc, net, &ways, src)? {
            count = count.wrapping_add(walk.len() as u64);
        }
    }
    Ok(count)
}

/// How many links the least walks from all nodes to the first `targets` have. Each is sought alone.
pub fn links_alone(alloc: Global, net: &Network, targets: u32) -> Result<u64, SchemeFault>
    requires network { IsTrue (is_well_formed net.now) }
    requires nodes { node_count net.now ≡ 64 }
    requires targets { targets ≤ 64 }
{
    let mut count = 0u64;
    for dst in 0..targets {
        count = count.wrapping_add(links_to(alloc, net, dst)?);
    }
    Ok(count)
}

/// The same of walks that are sought together: one search graph is lent to all.
pub fn links_together(alloc: Global, net: &Network, targets: u32) -> Result<u64, SchemeFault>
    requires network { IsTrue (is_well_formed net.now) }
    requires nodes { node_count net.now ≡ 64 }
    requires targets { targets ≤ 64 }
{
    let mut searches = Searches::new(alloc, net, Direction::Backward)?;
    let mut count = 0u64;
    for dst in 0..targets {
        count = count.wrapping_add(links_by(alloc, net, &mut searches, dst)?);
    }
    Ok(count)
}
