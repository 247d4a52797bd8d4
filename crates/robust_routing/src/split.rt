//! The routing that rates make: the weights of paths in millionths, equal paths taken together.
ghost use Rattle.std.specs.Prelude.{◌≡◌, ◌^◌, ◌≤◌, IfOk, length};
ghost use Rattle.te_model.specs.PathRouting.{IsPathSplit};
ghost use Rattle.routing.specs.Routes.{HasFewPaths, IsRoutingOf};
ghost use Rattle.robust_routing.specs.Joint.{ArePathsOfPairs, ArePathsWithin};
ghost use Rattle.robust_routing.specs.Split.{AreSharesOf, AreSomeRates};

use crate::rates::PathRates;
use crate::sweep::WHOLE;
use routing::{Routing, merge};
use std::alloc::Global;
use te_model::{
    Items, Memory, Network, Pair, PairRoutes, Path, PathShare, SHARE_UNIT, apportion, number_at,
};

/// The rate, and 1 where it is 0.
fn some_rate(rate: u64) -> u64
    ensures some { 1 ≤ result }
    ensures small { result ≤ 2 ^ 30 }
{
    rate.max(1).min(WHOLE)
}

/// The rate of each path, and 1 where it has none.
fn some_rates(alloc: Global, count: usize, rates: &[u64]) -> Result<Vec<u64>, Memory>
    ensures { IfOk result (λ w. AreSomeRates count w.items) }
{
    let mut list = Vec::with_capacity(alloc, count)?;
    for i in 0..count {
        list.push(some_rate(number_at(rates, i)))?;
    }
    Ok(list)
}

/// The paths that have a part of the demand.
fn shares_of(alloc: Global, paths: &[Path], parts: &[u64]) -> Result<Vec<PathShare>, Memory>
    requires count { length parts.now ≡ length paths.now }
    ensures { IfOk result (λ s. AreSharesOf paths.now parts.now (length paths.now) s.items) }
{
    let mut shares = Vec::with_capacity(alloc, paths.len())?;
    for i in 0..paths.len() {
        if parts[i] > 0 {
            let links = Vec::from_slice(alloc, paths[i].links.as_slice())?;
            shares.push(PathShare {
                links: Items::new(links),
                weight: parts[i],
            })?;
        }
    }
    Ok(shares)
}

/// The split of the demand of the pair by the rates.
fn split_of(
    alloc: Global,
    net: &Network,
    pair: Pair,
    limit: usize,
    rates: &PathRates,
) -> Result<Vec<PathShare>, Memory>
    requires few { limit ≤ 32 }
    requires paths { ArePathsWithin net.now limit pair rates.now.paths }
    ensures split { IfOk result (λ s. IsPathSplit net.now (record { pair = pair; paths = s.items })) }
    ensures few { IfOk result (λ s. length s.items ≤ limit) }
{
    let paths = rates.paths();
    let weights = some_rates(alloc, paths.len(), rates.rates())?;
    let parts = apportion(alloc, SHARE_UNIT, &weights)?;
    let shares = shares_of(alloc, paths, &parts)?;
    merge(alloc, shares)
}

/// The routing of the pairs by the rates. `Memory` comes where memory is wanting.
pub fn routing_of(
    alloc: Global,
    net: &Network,
    pairs: &[Pair],
    limit: usize,
    list: &[PathRates],
) -> Result<Routing, Memory>
    requires few { limit ≤ 32 }
    requires list { ArePathsOfPairs net.now limit pairs.now list.now }
    ensures routing { IfOk result (λ r. IsRoutingOf net.now pairs.now r.routes) }
    ensures few { IfOk result (λ r. HasFewPaths limit r.routes) }
{
    let mut routes = Vec::with_capacity(alloc, list.len())?;
    for p in 0..list.len() {
        let split = split_of(alloc, net, pairs[p], limit, &list[p])?;
        routes.push(PairRoutes {
            pair: pairs[p],
            paths: Items::new(split),
        })?;
    }
    Ok(Routing {
        routes: Items::new(routes),
    })
}
