//! Least sums of lengths from one node, and the potentials that they make.
ghost use Rattle.std.specs.Prelude.{◌≡◌, ◌^◌, ◌<◌, ◌≤◌, IfOk, IsTrue, All, length, map, unwrap_or};
ghost use Rattle.te_model.specs.Network.{is_well_formed, node_count, link_count};
ghost use Rattle.shortest_path.specs.Paths.{AreDistances, ArePotentials, greatest};

use crate::rows::Direction;
use crate::searches::Searches;
use std::alloc::Global;
use te_model::{Memory, Network};

/// The least sum of lengths over the paths from `src` to each node, in the order of the nodes: 0 at
/// `src`, and `None` exactly where no path leads to the node (Dijkstra, 1959).
///
/// `lengths` has one length for each link. `Memory` comes where memory is wanting.
pub fn distances(
    alloc: Global,
    net: &Network,
    lengths: &[u64],
    src: u32,
) -> Result<Vec<Option<u64>>, Memory>
    requires network { IsTrue (is_well_formed net.now) }
    requires lengths { length lengths.now ≡ link_count net.now }
    requires limit { All (λ l. l ≤ 2 ^ 28) lengths.now }
    requires src { src < node_count net.now }
    ensures { IfOk result (λ d. AreDistances net.now lengths.now src d.items) }
{
    let mut searches = Searches::new(alloc, net, Direction::Forward)?;
    let mut distances = vec![in alloc; None; net.names.as_slice().len()]?;
    searches.distances(net, lengths, src, &mut distances);
    Ok(distances)
}

/// The greatest distance that is known, or 0.
fn greatest_of(distances: &[Option<u64>]) -> u64
    ensures { result ≡ greatest distances.now }
{
    let mut most = 0;
    for distance in distances {
        most = most.max(distance.unwrap_or(0));
    }
    most
}

/// The distances, with the greatest of them in place of those that are not known.
///
/// `Memory` comes where memory is wanting.
pub fn potentials_by(alloc: Global, distances: &[Option<u64>]) -> Result<Vec<u64>, Memory>
    ensures { IfOk result (λ p. p.items ≡ map (λ d. unwrap_or d (greatest distances.now)) distances.now) }
{
    let most = greatest_of(distances);
    let potentials = distances.iter().map(|d| d.unwrap_or(most)).collect(alloc)?;
    Ok(potentials)
}

/// The distances from `src`, with the greatest of them for the nodes out of reach. So the potential
/// of a link's head is at most that of its tail and the link's length.
///
/// `lengths` has one length for each link. `Memory` comes where memory is wanting.
pub fn potentials(
    alloc: Global,
    net: &Network,
    lengths: &[u64],
    src: u32,
) -> Result<Vec<u64>, Memory>
    requires network { IsTrue (is_well_formed net.now) }
    requires lengths { length lengths.now ≡ link_count net.now }
    requires limit { All (λ l. l ≤ 2 ^ 28) lengths.now }
    requires src { src < node_count net.now }
    ensures { IfOk result (λ p. ArePotentials net.now lengths.now src p.items) }
{
    let distances = distances(alloc, net, lengths, src)?;
    potentials_by(alloc, &distances)
}
