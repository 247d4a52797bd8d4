//! The routing that sweeps make.
ghost use Rattle.std.specs.Prelude.{◌≡◌, ◌<◌, ◌≤◌, ℕ, List, [], ◌∷◌, ◌++◌, All, IfOk, OnOk, length, map};
ghost use Rattle.te_model.specs.declared.route.Pair.{Pair};
ghost use Rattle.routing.specs.Routes.{HasFewPaths, IsRoutingOf};
ghost use Rattle.rate_sweeps.specs.Sweeps.{ArePathsOfPairs, IsOfSweeps, IsWeight, paths_in, paths_of_pair};

use crate::schedule::UNCOUNTED;
use routing::{Routing, merge, normalize};
use std::alloc::Global;
use te_model::{Items, Memory, Network, PairRoutes, Path, PathShare};

/// A sweep: the path that each pair takes, and how much the sweep counts.
#[derive(Drop)]
pub struct Sweep {
    /// From 1 to 30,000.
    pub weight: u64,
    /// One for each pair.
    pub paths: Items<Path>,
}

/// Adds the sweep of this number of a stage to those that count, which the first `UNCOUNTED` do not.
///
/// `Memory` comes where memory is wanting.
pub fn add_counted(
    sweeps: &mut Vec<Sweep>,
    number: usize,
    weight: u64,
    paths: Vec<Path>,
) -> Result<(), Memory>
    ensures counted { UNCOUNTED ≤ number → OnOk result (sweeps.new.items ≡ sweeps.old.items ++ record { weight = weight; paths = paths.items } ∷ []) }
    ensures uncounted { number < UNCOUNTED → OnOk result (sweeps.new.items ≡ sweeps.old.items) }
{
    if number >= UNCOUNTED {
        sweeps.push(Sweep {
            weight,
            paths: Items::new(paths),
        })?;
    }
    Ok(())
}

/// The path of the pair of this number in each sweep, with the weight of the sweep.
fn parts_of_pair(alloc: Global, sweeps: &[Sweep], pair: usize) -> Result<Vec<PathShare>, Memory>
    requires paths { All (λ s. pair < length s.paths) sweeps.now }
    requires weights { All (λ s. IsWeight s.weight) sweeps.now }
    ensures paths { IfOk result (λ q. map (λ s. s.links) q.items ≡ paths_of_pair sweeps.now pair) }
    ensures weights { IfOk result (λ q. All (λ s. IsWeight s.weight) q.items) }
{
    let mut parts = Vec::with_capacity(alloc, sweeps.len())?;
    for sweep in sweeps {
        let path = &sweep.paths.as_slice()[pair];
        let links = Vec::from_slice(alloc, path.links.as_slice())?;
        parts.push(PathShare {
            links: Items::new(links),
            weight: sweep.weight,
        })?;
    }
    Ok(parts)
}

/// The routing in which each pair has its paths of the sweeps, in parts by what each sweep counts. The pairs are those of `like`.
///
/// Each sweep has a path of the network for each pair. `Memory` comes where memory is wanting.
pub fn routing_by(
    alloc: Global,
    net: &Network,
    sweeps: &[Sweep],
    like: &Routing,
) -> Result<Routing, Memory>
    requires some { 1 ≤ length sweeps.now }
    requires few { length sweeps.now ≤ 32 }
    requires weights { All (λ s. IsWeight s.weight) sweeps.now }
    requires paths { All (λ s. ArePathsOfPairs net.now like.now.routes (paths_in s)) sweeps.now }
    ensures routing { (pairs : List Pair) → IsRoutingOf net.now pairs like.now.routes → IfOk result (λ r. IsRoutingOf net.now pairs r.routes) }
    ensures few { IfOk result (λ r. HasFewPaths (length sweeps.now) r.routes) }
    ensures only { IfOk result (λ r. IsOfSweeps sweeps.now r.routes) }
{
    let list = like.routes.as_slice();
    let mut routes = Vec::with_capacity(alloc, list.len())?;
    for p in 0..list.len() {
        let parts = parts_of_pair(alloc, sweeps, p)?;
        let shares = normalize(alloc, &parts)?;
        let merged = merge(alloc, shares)?;
        routes.push(PairRoutes {
            pair: list[p].pair,
            paths: Items::new(merged),
        })?;
    }
    Ok(Routing {
        routes: Items::new(routes),
    })
}
