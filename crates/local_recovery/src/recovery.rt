//! What stands of a routing where links have failed.
ghost use Rattle.std.specs.Prelude.{◌≡◌, ◌^◌, ◌≤◌, ◌<◌, All, IfOk, IsTrue, List, length, map, filter, slice_index_or, take};
ghost use Rattle.te_model.specs.Network.{is_well_formed, link_count};
ghost use Rattle.te_model.specs.PathRouting.{IsPathSplit, IsPathRouting};
ghost use Rattle.shortest_path.specs.Least.{links_of};
ghost use Rattle.routing.specs.Routes.{HasFewPaths};
ghost use Rattle.routing.specs.Split.{is_split, are_splits};
ghost use Rattle.local_recovery.specs.declared.mode.Mode.TheVariants as modes;
ghost use Rattle.local_recovery.specs.Rates.{pairs_of, HasPathsOf};
ghost use Rattle.local_recovery.specs.Recovery.{scaled_routes, is_clear, JoinEnds, IsBypassed, IsRecovered};

use crate::bypass::parts;
use crate::bypass_path::bypass_paths;
use crate::marks::is_clear;
use crate::mode::Mode;
use crate::rates::Recovered;
use crate::rescale::scale_to_unit;
use routing::{Routing, merge};
use std::alloc::Global;
use te_model::{Items, Memory, Network, PairRoutes, Path, PathShare};

/// The same path, in a list of its own.
fn copy_path(alloc: Global, path: &PathShare) -> Result<PathShare, Memory>
    ensures { IfOk result (λ p. p ≡ path.now) }
{
    let links = Vec::from_slice(alloc, path.links.as_slice())?;
    Ok(PathShare {
        links: Items::new(links),
        weight: path.weight,
    })
}

/// The paths without a failed link.
fn clear_paths(
    alloc: Global,
    failed: &[bool],
    paths: &[PathShare],
) -> Result<Vec<PathShare>, Memory>
    ensures { IfOk result (λ v. v.items ≡ filter (is_clear failed.now) paths.now) }
{
    let mut list = Vec::new(alloc);
    for path in paths {
        if is_clear(failed, path) {
            list.push(copy_path(alloc, path)?)?;
        }
    }
    Ok(list)
}

/// The paths of the pair without a failed link, with weights scaled to one million.
fn scale_pair(alloc: Global, failed: &[bool], routes: &PairRoutes) -> Result<PairRoutes, Memory>
    requires few { length routes.now.paths ≤ 4096 }
    requires split { IsTrue (is_split routes.now) }
    ensures { IfOk result (λ r. r ≡ scaled_routes failed.now routes.now) }
{
    let paths = clear_paths(alloc, failed, routes.paths.as_slice())?;
    let list = scale_to_unit(alloc, paths)?;
    Ok(PairRoutes {
        pair: routes.pair,
        paths: Items::new(list),
    })
}

/// The paths of the pair round the failed links, merged, with weights scaled to one million.
fn bypass_pair(
    alloc: Global,
    net: &Network,
    bypass_paths: &[Option<Path>],
    routes: &PairRoutes,
) -> Result<PairRoutes, Memory>
    requires few { length routes.now.paths ≤ 4096 }
    requires split { IsPathSplit net.now routes.now }
    requires bypass_paths { JoinEnds net.now (map links_of bypass_paths.now) }
    ensures { IfOk result (λ r. IsBypassed net.now (map links_of bypass_paths.now) routes.now r) }
{
    let parts = parts(alloc, net, bypass_paths, routes)?;
    let merged = merge(alloc, parts)?;
    let list = scale_to_unit(alloc, merged)?;
    Ok(PairRoutes {
        pair: routes.pair,
        paths: Items::new(list),
    })
}

fn scale(alloc: Global, failed: &[bool], routes: &[PairRoutes]) -> Result<Items<PairRoutes>, Memory>
    requires few { HasFewPaths 4096 routes.now }
    requires splits { IsTrue (are_splits routes.now) }
    ensures { IfOk result (λ v. v ≡ map (scaled_routes failed.now) routes.now) }
{
    let mut list = Vec::new(alloc);
    for pair in routes {
        list.push(scale_pair(alloc, failed, pair)?)?;
    }
    Ok(Items::new(list))
}

fn bypass(
    alloc: Global,
    net: &Network,
    failed: &[bool],
    routes: &[PairRoutes],
) -> Result<Items<PairRoutes>, Memory>
    requires network { IsTrue (is_well_formed net.now) }
    requires marks { length failed.now ≡ link_count net.now }
    requires few { HasFewPaths 4096 routes.now }
    requires routing { IsPathRouting net.now routes.now }
    ensures { IfOk result (λ v. IsRecovered modes.Bypass net.now failed.now routes.now v) }
{
    let bypass_paths = bypass_paths(alloc, net, failed)?;
    let mut list = Vec::new(alloc);
    for pair in routes {
        list.push(bypass_pair(alloc, net, bypass_paths.as_slice(), pair)?)?;
    }
    Ok(Items::new(list))
}

/// The routes that are left in the mode.
fn left(
    alloc: Global,
    mode: Mode,
    net: &Network,
    failed: &[bool],
    routing: &Routing,
) -> Result<Items<PairRoutes>, Memory>
    requires network { IsTrue (is_well_formed net.now) }
    requires marks { length failed.now ≡ link_count net.now }
    requires routing { IsPathRouting net.now routing.now.routes }
    requires few { HasFewPaths 4096 routing.now.routes }
    ensures { IfOk result (λ v. IsRecovered mode net.now failed.now routing.now.routes v) }
{
    let routes = routing.routes.as_slice();
    match mode {
        Mode::Keep => Ok(routing.copy(alloc)?.routes),
        Mode::Scale => scale(alloc, failed, routes),
        Mode::Bypass => bypass(alloc, net, failed, routes),
    }
}

/// What stands of the routing where the marked links have failed.
///
/// `Keep` gives the routing itself. `Scale` drops each path with a failed link. `Bypass` replaces every failed link of a path by the
/// least path by cost between its ends among links that have not failed, drops the path where there is none for one of them, cuts
/// loops and merges. Under the last two the weights that are left of a pair are apportioned to one million, and a pair whose paths
/// were all dropped has none. `failed` has one mark for each link. `Memory` comes where memory is wanting.
pub fn recover(
    alloc: Global,
    mode: Mode,
    net: &Network,
    failed: &[bool],
    routing: &Routing,
) -> Result<Recovered, Memory>
    requires network { IsTrue (is_well_formed net.now) }
    requires marks { length failed.now ≡ link_count net.now }
    requires routing { IsPathRouting net.now routing.now.routes }
    requires few { HasFewPaths 4096 routing.now.routes }

    ensures recovered { IfOk result (λ r. IsRecovered mode net.now failed.now routing.now.routes r.routes) }
    ensures pairs { IfOk result (λ r. pairs_of r.routes ≡ pairs_of routing.now.routes) }
    ensures paths { IfOk result (λ r. HasPathsOf net.now r.routes) }
    ensures few { IfOk result (λ r. HasFewPaths 4096 r.routes) }
{
    let routes = left(alloc, mode, net, failed, routing)?;
    Ok(Recovered { routes })
}
