//! Routings over the trees of the rounds.
ghost use Rattle.std.specs.Prelude.{◌≡◌, ◌≤◌, All, IfErr, IfNone, IfOk, IfSome, IsTrue, OnOk, length, map};
ghost use Rattle.te_model.specs.Network.{is_well_formed};
ghost use Rattle.te_model.specs.Path.{is_path};
ghost use Rattle.shortest_path.specs.Paths.{HasPath};
ghost use Rattle.scheme.specs.Fault.{IsFault};
ghost use Rattle.scheme.specs.Fixed.{IsRoutingBy, IsSplitBy};
ghost use Rattle.scheme.specs.Reach.{AllReached, ArePairsOf, IsPairOf};
ghost use Rattle.racke_mix.specs.Mix.{AreTreePaths, IsMixSplit};

use crate::round::Round;
use routing::{Routing, even_mix};
use scheme::SchemeFault;
use std::alloc::Global;
use te_model::{Items, Memory, Network, Pair, PairRoutes, Pairs, Path, PathShare};

/// The tree path of the pair in each round, or `None` exactly where no path leads from its source to
/// its destination.
fn tree_paths(
    alloc: Global,
    net: &Network,
    rounds: &[Round],
    pair: Pair,
) -> Result<Option<Vec<Path>>, Memory>
    requires own { All (λ r. r.tree.network ≡ net.now) rounds.now }
    requires pair { IsPairOf net.now pair }
    ensures none { IfOk result (λ o. IfNone o (HasPath net.now pair.src pair.dst → ⊥)) }
    ensures some { IfOk result (λ o. IfSome o (λ p. AreTreePaths rounds.now pair.src pair.dst (map (λ q. q.links) p.items))) }
    ensures paths { IfOk result (λ o. IfSome o (λ p. All (λ q. IsTrue (is_path net.now pair.src pair.dst q)) (map (λ q. q.links) p.items))) }
{
    let mut paths = Vec::with_capacity(alloc, rounds.len())?;
    for round in rounds {
        match round.tree.tree_path(alloc, net, pair.src, pair.dst)? {
            Some(path) => paths.push(path)?,
            None => return Ok(None),
        }
    }
    Ok(Some(paths))
}

/// The weighted paths of the pair, or `None` exactly where no path leads from its source to its
/// destination.
fn split(
    alloc: Global,
    net: &Network,
    rounds: &[Round],
    pair: Pair,
) -> Result<Option<Vec<PathShare>>, Memory>
    requires own { All (λ r. r.tree.network ≡ net.now) rounds.now }
    requires some { 1 ≤ length rounds.now }
    requires few { length rounds.now ≤ 16 }
    requires pair { IsPairOf net.now pair }
    ensures none { IfOk result (λ o. IfNone o (HasPath net.now pair.src pair.dst → ⊥)) }
    ensures some { IfOk result (λ o. IfSome o (λ paths. IsSplitBy (IsMixSplit rounds.now) 16 net.now (record { pair = pair; paths = paths.items }))) }
{
    match tree_paths(alloc, net, rounds, pair)? {
        Some(paths) => {
            let merged = even_mix(alloc, paths)?;
            Ok(Some(merged))
        }
        None => Ok(None),
    }
}

/// The routing of the pairs over the trees of the rounds, of which there are 1 to 16.
///
/// `NoPath` names the first pair without a path, exactly where there is one, and `Memory` comes
/// where memory is wanting.
pub fn mix_routing(
    alloc: Global,
    net: &Network,
    rounds: &[Round],
    pairs: &Pairs,
) -> Result<Routing, SchemeFault>
    requires own { All (λ r. r.tree.network ≡ net.now) rounds.now }
    requires some { 1 ≤ length rounds.now }
    requires few { length rounds.now ≤ 16 }
    requires pairs { ArePairsOf net.now pairs.now.list }
    ensures routing { IfOk result (λ r. IsRoutingBy (IsMixSplit rounds.now) 16 net.now pairs.now.list r.routes) }
    ensures reached { OnOk result (AllReached net.now pairs.now.list) }
    ensures fault { IfErr result (IsFault net.now pairs.now.list) }
{
    let list = pairs.list.as_slice();
    let mut routes = Vec::new(alloc);
    for p in 0..list.len() {
        let pair = list[p];
        match split(alloc, net, rounds, pair)? {
            Some(paths) => {
                let paths = Items::new(paths);
                routes.push(PairRoutes { pair, paths })?;
            }
            None => return Err(SchemeFault::NoPath(p as u32)),
        }
    }
    Ok(Routing {
        routes: Items::new(routes),
    })
}
