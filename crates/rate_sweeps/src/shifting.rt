//! Weight that goes from the dearest path of each pair to another one.
ghost use Rattle.std.specs.Prelude.{◌≡◌, ◌↔◌, ◌^◌, ◌<◌, ◌≤◌, List, All, IfOk, IsTrue, OnOk, length, map};
ghost use Rattle.te_model.specs.declared.route.Pair.{Pair};
ghost use Rattle.te_model.specs.Network.{link_count};
ghost use Rattle.te_model.specs.PathRouting.{IsPathRouting};
ghost use Rattle.routing.specs.Routes.{AreDemands, HasFewPaths, IsRoutingOf};
ghost use Rattle.routing.specs.Split.{total_weight};
ghost use Rattle.te_model.specs.Validity.{paths_ascend};
ghost use Rattle.te_model.specs.declared.units.TheConstants.{SHARE_UNIT};
ghost use Rattle.rate_sweeps.specs.Shifts.{AreShifts, IsDearer, IsDearestShift, IsShifted, IsTarget, UsesOnlyWays};
ghost use Rattle.rate_sweeps.specs.Sweeps.{ArePathsOfPairs, HaveLinks, links_in};

use crate::paths::{cheapest, dearest};
use local_search::paths_after;
use routing::Routing;
use shortest_path::length_along;
use std::alloc::Global;
use std::mem;
use te_model::{Items, Matrix, Memory, Network, PairRoutes, Path};

/// Whether one path is dearer than another by more than a 16th of that.
fn is_dearer(lengths: &[u64], dear: &[u32], cheap: &[u32]) -> bool
    requires limit { All (λ l. l ≤ 2 ^ 28) lengths.now }
    requires dear { All (λ h. h < length lengths.now) dear.now }
    requires cheap { All (λ h. h < length lengths.now) cheap.now }
    ensures { IsTrue result ↔ IsDearer lengths.now dear.now cheap.now }
{
    let sum = length_along(lengths, cheap);
    length_along(lengths, dear) > sum + sum / 16
}

/// The links to which weight of the pair goes: those of the offered path, or where the pair has `limit` paths, of its own cheapest.
fn target_of(
    alloc: Global,
    route: &PairRoutes,
    offered: &Path,
    lengths: &[u64],
    limit: usize,
) -> Result<Vec<u32>, Memory>
    requires some { 0 < length route.now.paths }
    requires lengths { All (λ l. l ≤ 2 ^ 28) lengths.now }
    requires links { HaveLinks (length lengths.now) route.now.paths }
    ensures { IfOk result (λ t. IsTarget lengths.now limit route.now.paths offered.now.links t.items) }
{
    let paths = route.paths.as_slice();
    let links = if paths.len() < limit {
        offered.links.as_slice()
    } else {
        paths[cheapest(lengths, paths)].links.as_slice()
    };
    let copy = Vec::from_slice(alloc, links)?;
    Ok(copy)
}

/// Takes the weight of the pair's dearest path, divided by `step_divisor`, to the cheap one, where that is cheaper by enough.
fn shift_pair(
    alloc: Global,
    route: &mut PairRoutes,
    offered: &Path,
    lengths: &[u64],
    step_divisor: u64,
    limit: usize,
) -> Result<(), Memory>
    requires some { 0 < length route.old.paths }
    requires ascending { IsTrue (paths_ascend route.old.paths) }
    requires positive { All (λ s. 1 ≤ s.weight) route.old.paths }
    requires whole { total_weight route.old.paths ≡ SHARE_UNIT }
    requires lengths { All (λ l. l ≤ 2 ^ 28) lengths.now }
    requires links { HaveLinks (length lengths.now) route.old.paths }
    requires offered { All (λ h. h < length lengths.now) offered.now.links }
    requires step_divisor { (1 ≤ step_divisor) × (step_divisor ≤ 4096) }
    ensures shifted { OnOk result (IsShifted limit route.old offered.now.links route.new) }
    ensures dearest { OnOk result (IsDearestShift lengths.now step_divisor limit route.old offered.now.links route.new) }
{
    let to = target_of(alloc, route, offered, lengths, limit)?;
    let paths = route.paths.as_slice();
    let from = dearest(lengths, paths);
    if !is_dearer(lengths, paths[from].links.as_slice(), &to) {
        return Ok(());
    }
    let units = (paths[from].weight + (step_divisor - 1)) / step_divisor;
    let old = mem::replace(&mut route.paths, Items::new(Vec::new(alloc)));
    let next = paths_after(alloc, old.into_vec(), from, &to, units)?;
    route.paths = Items::new(next);
    Ok(())
}

/// The routing after part of the weight of the dearest path of each pair with a demand has gone to the offered path of the pair,
/// where that is cheaper by enough by the lengths.
///
/// `offered` has a path for each pair. No pair has more than `limit` paths, if none has at the start. `Memory` comes where memory
/// is wanting.
pub fn shift_dearest(
    alloc: Global,
    net: &Network,
    matrix: &Matrix,
    routing: Routing,
    offered: &[Path],
    lengths: &[u64],
    step_divisor: u64,
    limit: usize,
) -> Result<Routing, Memory>
    requires routing { IsPathRouting net.now routing.routes }
    requires demands { AreDemands (length routing.routes) matrix.now.demand }
    requires offered { ArePathsOfPairs net.now routing.routes (map links_in offered.now) }
    requires count { length lengths.now ≡ link_count net.now }
    requires lengths { All (λ l. l ≤ 2 ^ 28) lengths.now }
    requires step_divisor { (1 ≤ step_divisor) × (step_divisor ≤ 4096) }
    requires limit { 1 ≤ limit }
    ensures routing { (pairs : List Pair) → IsRoutingOf net.now pairs routing.routes → IfOk result (λ r. IsRoutingOf net.now pairs r.routes) }
    ensures only { IfOk result (λ r. UsesOnlyWays routing.routes (map links_in offered.now) r.routes) }
    ensures few { HasFewPaths limit routing.routes → IfOk result (λ r. HasFewPaths limit r.routes) }
    ensures shifts { IfOk result (λ r. AreShifts lengths.now step_divisor limit matrix.now.demand routing.routes (map links_in offered.now) r.routes) }
{
    let demand = matrix.demand.as_slice();
    let mut routes = routing.routes.into_vec();
    for p in 0..routes.len() {
        if demand[p] > 0 {
            shift_pair(
                alloc,
                &mut routes[p],
                &offered[p],
                lengths,
                step_divisor,
                limit,
            )?;
        }
    }
    Ok(Routing {
        routes: Items::new(routes),
    })
}
