//! The least sums of lengths between all nodes.
ghost use Rattle.std.specs.Prelude.{◌≡◌, ◌^◌, ◌<◌, ◌≤◌, IfOk, IsTrue, All, length};
ghost use Rattle.te_model.specs.Network.{is_well_formed, link_count, node_count};
ghost use Rattle.shortest_path.specs.declared.rows.Direction.TheVariants.{Backward};
ghost use Rattle.shortest_path.specs.Least.{AreLeastSums};
ghost use Rattle.shortest_path.specs.Links.{every_link};
ghost use Rattle.shortest_path.specs.Rows.{IsSearchGraph};
ghost use Rattle.tree_embed.specs.Centers.{greater_of};
ghost use Rattle.tree_embed.specs.Tables.{AreSums, IsSquare, is_at_most, is_within, sum_between};

use shortest_path::{Direction, Searches};
use std::alloc::Global;
use te_model::{Items, Memory, Network};

/// The least sums of lengths from all nodes to one. The searches are against links in the network.
fn sums_toward(
    alloc: Global,
    net: &Network,
    searches: &mut Searches,
    lengths: &[u64],
    every: &[bool],
    node: u32,
) -> Result<Items<Option<u64>>, Memory>
    requires network { IsTrue (is_well_formed net.now) }
    requires against { IsSearchGraph net.now Backward searches.old }
    requires lengths { length lengths.now ≡ link_count net.now }
    requires every { every.now ≡ every_link net.now }
    requires limit { All (λ l. l ≤ 2 ^ 28) lengths.now }
    requires node { node < node_count net.now }
    ensures sums { IfOk result (AreLeastSums net.now lengths.now (every_link net.now) node) }
    ensures same { searches.new ≡ searches.old }
{
    let mut row: Vec<Option<u64>> = vec![in alloc; None; net.names.as_slice().len()]?;
    searches.toward(net, lengths, every, node, &mut row);
    Ok(Items::new(row))
}

/// For each node the least sums of lengths from all nodes to it.
pub fn sums_of(
    alloc: Global,
    net: &Network,
    lengths: &[u64],
) -> Result<Vec<Items<Option<u64>>>, Memory>
    requires network { IsTrue (is_well_formed net.now) }
    requires lengths { length lengths.now ≡ link_count net.now }
    requires limit { All (λ l. l ≤ 2 ^ 28) lengths.now }
    ensures { IfOk result (λ sums. AreSums net.now lengths.now sums.items) }
{
    let nodes = net.names.as_slice().len();
    let every = vec![in alloc; true; net.links.as_slice().len()]?;
    let mut searches = Searches::new(alloc, net, Direction::Backward)?;
    let mut sums = Vec::with_capacity(alloc, nodes)?;
    for node in 0..nodes {
        let row = sums_toward(alloc, net, &mut searches, lengths, &every, node as u32)?;
        sums.push(row)?;
    }
    Ok(sums)
}

/// The least sum from `src` to `dst`.
fn sum_between(sums: &[Items<Option<u64>>], src: u32, dst: u32) -> Option<u64>
    requires sums { IsSquare (length sums.now) sums.now }
    requires src { src < length sums.now }
    requires dst { dst < length sums.now }
    ensures { result ≡ sum_between sums.now src dst }
{
    sums[dst as usize].as_slice()[src as usize]
}

/// The greater of the two, or `None` where one of them is not there.
fn greater_of(there: Option<u64>, back: Option<u64>) -> Option<u64>
    ensures { result ≡ greater_of there back }
{
    match (there, back) {
        (Some(x), Some(y)) => Some(x.max(y)),
        _ => None,
    }
}

fn is_at_most(distance: Option<u64>, radius: u64) -> bool
    ensures { result ≡ is_at_most distance radius }
{
    match distance {
        Some(d) => d <= radius,
        None => false,
    }
}

/// Whether the greater of the least sums there and back is at most the radius.
pub fn is_within(sums: &[Items<Option<u64>>], radius: u64, u: u32, v: u32) -> bool
    requires sums { IsSquare (length sums.now) sums.now }
    requires u { u < length sums.now }
    requires v { v < length sums.now }
    ensures { result ≡ is_within sums.now radius u v }
{
    let there = sum_between(sums, u, v);
    let back = sum_between(sums, v, u);
    is_at_most(greater_of(there, back), radius)
}
