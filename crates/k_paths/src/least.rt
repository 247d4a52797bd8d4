//! The first paths of all in the order of costs.
ghost use Rattle.std.specs.Prelude.{◌≡◌, ◌≢◌, ◌<◌, ◌≤◌, IfOk, IsTrue, map};
ghost use Rattle.te_model.specs.Network.{is_well_formed, node_count};
ghost use Rattle.shortest_path.specs.Ways.{AreWays};
ghost use Rattle.k_paths.specs.Classes.{AreLeast};
ghost use Rattle.k_paths.specs.Outgoing.{AreOutgoing};

use crate::candidate::BoundedClass;
use crate::outgoing::{Outgoing, outgoing_links};
use crate::search::{advance, first_class, first_of};
use shortest_path::{Direction, Searches, Ways, ways_to};
use std::alloc::Global;
use te_model::{Items, Memory, Network, Path};

/// The paths of `k_least_by`, by the links that leave each node.
///
/// The classes of paths that are not found yet are split at each found path (Yen, 1971; Lawler,
/// 1972). A class is searched once its bound comes first.
pub fn k_least_along(
    alloc: Global,
    net: &Network,
    ways: &Ways,
    outgoing: &Outgoing,
    src: u32,
    k: u32,
) -> Result<Vec<Path>, Memory>
    requires network { IsTrue (is_well_formed net.now) }
    requires ways { AreWays net.now ways.now }
    requires outgoing { AreOutgoing net.now outgoing.now }
    requires src { src < node_count net.now }
    requires apart { src ≢ ways.now.dst }
    requires some { 1 ≤ k }
    requires few { k ≤ 32 }
    ensures { IfOk result (λ p. AreLeast net.now src ways.now.dst k (map (λ q. q.links) p.items)) }
{
    let mut candidates = first_class(alloc, net, ways, src)?;
    let mut bounded: Vec<BoundedClass> = Vec::new(alloc);
    let mut found: Vec<Path> = Vec::new(alloc);
    while found.len() < k as usize && !candidates.is_empty() {
        let best = first_of(ways.costs.as_slice(), &candidates);
        let links = Vec::from_slice(alloc, candidates[best].links.as_slice())?;
        // No path is taken after the last, so its class stays whole.
        if found.len() + 1 < k as usize {
            candidates = advance(
                alloc,
                net,
                ways,
                outgoing,
                src,
                candidates,
                &links,
                &mut bounded,
            )?;
        }
        found.push(Path {
            links: Items::new(links),
        })?;
    }
    Ok(found)
}

/// The first `k` of all paths from `src` to the node of the ways in the order of (cost, list of link
/// numbers), or all of them where there are fewer.
///
/// `Memory` comes where memory is wanting.
pub fn k_least_by(
    alloc: Global,
    net: &Network,
    ways: &Ways,
    src: u32,
    k: u32,
) -> Result<Vec<Path>, Memory>
    requires network { IsTrue (is_well_formed net.now) }
    requires ways { AreWays net.now ways.now }
    requires src { src < node_count net.now }
    requires apart { src ≢ ways.now.dst }
    requires some { 1 ≤ k }
    requires few { k ≤ 32 }
    ensures { IfOk result (λ p. AreLeast net.now src ways.now.dst k (map (λ q. q.links) p.items)) }
{
    let outgoing = outgoing_links(alloc, net)?;
    k_least_along(alloc, net, ways, &outgoing, src, k)
}

/// The first `k` of all paths from `src` to `dst` in the order of (cost, list of link numbers), or
/// all of them where there are fewer.
///
/// `Memory` comes where memory is wanting.
pub fn k_least(
    alloc: Global,
    net: &Network,
    src: u32,
    dst: u32,
    k: u32,
) -> Result<Vec<Path>, Memory>
    requires network { IsTrue (is_well_formed net.now) }
    requires src { src < node_count net.now }
    requires dst { dst < node_count net.now }
    requires apart { src ≢ dst }
    requires some { 1 ≤ k }
    requires few { k ≤ 32 }
    ensures { IfOk result (λ p. AreLeast net.now src dst k (map (λ q. q.links) p.items)) }
{
    let mut searches = Searches::new(alloc, net, Direction::Backward)?;
    let ways = ways_to(alloc, net, &mut searches, dst)?;
    k_least_by(alloc, net, &ways, src, k)
}
