//! The cheapest and the dearest of given paths.
ghost use Rattle.std.specs.Prelude.{◌≡◌, ℕ, ◌^◌, ◌<◌, ◌≤◌, List, All, IfOk, length, map};
ghost use Rattle.te_model.specs.Network.{link_count};
ghost use Rattle.te_model.specs.PathRouting.{IsPathRouting};
ghost use Rattle.routing.specs.Routes.{AreDemands};
ghost use Rattle.centred_steps.specs.Loads.{AreLoadsWithin};
ghost use Rattle.rate_sweeps.specs.Bounds.{sweep_loads};
ghost use Rattle.rate_sweeps.specs.Choices.{AreCheapest, IsFirstGreatest, IsFirstLeastPlace, cost_at};
ghost use Rattle.rate_sweeps.specs.Sweeps.{AreAmong, ArePathsOfPairs, HaveLinks, links_in};

use crate::dual_state::add_on;
use centred_steps::clear_loads;
use routing::Routing;
use shortest_path::length_along;
use std::alloc::Global;
use te_model::{Items, Matrix, Memory, Network, Path, PathShare};

/// The place of the first of the paths whose sum of lengths is least, of which there is at least one.
///
/// `lengths` has one number for each link. Takes no memory.
pub fn cheapest(lengths: &[u64], paths: &[PathShare]) -> usize
    requires some { 0 < length paths.now }
    requires limit { All (λ l. l ≤ 2 ^ 28) lengths.now }
    requires links { HaveLinks (length lengths.now) paths.now }
    ensures inside { result < length paths.now }
    ensures least { IsFirstLeastPlace (cost_at lengths.now paths.now) (length paths.now) result }
{
    let mut place = 0;
    let mut least = length_along(lengths, paths[0].links.as_slice());
    for k in 0..paths.len() {
        let sum = length_along(lengths, paths[k].links.as_slice());
        if sum < least {
            place = k;
            least = sum;
        }
    }
    place
}

/// The place of the first of the paths whose sum of lengths is greatest, of which there is at least one.
///
/// `lengths` has one number for each link. Takes no memory.
pub fn dearest(lengths: &[u64], paths: &[PathShare]) -> usize
    requires some { 0 < length paths.now }
    requires limit { All (λ l. l ≤ 2 ^ 28) lengths.now }
    requires links { HaveLinks (length lengths.now) paths.now }
    ensures inside { result < length paths.now }
    ensures greatest { IsFirstGreatest (cost_at lengths.now paths.now) (length paths.now) result }
{
    let mut place = 0;
    let mut most = length_along(lengths, paths[0].links.as_slice());
    for k in 0..paths.len() {
        let sum = length_along(lengths, paths[k].links.as_slice());
        if sum > most {
            place = k;
            most = sum;
        }
    }
    place
}

/// The cheapest path of each pair among those of the routing, by the lengths.
///
/// `lengths` has one number for each link. `Memory` comes where memory is wanting.
pub fn cheapest_paths(
    alloc: Global,
    net: &Network,
    routing: &Routing,
    lengths: &[u64],
) -> Result<Vec<Path>, Memory>
    requires routing { IsPathRouting net.now routing.now.routes }
    requires lengths { length lengths.now ≡ link_count net.now }
    requires limit { All (λ l. l ≤ 2 ^ 28) lengths.now }
    ensures ways { IfOk result (λ p. ArePathsOfPairs net.now routing.now.routes (map links_in p.items)) }
    ensures among { IfOk result (λ p. AreAmong routing.now.routes (map links_in p.items)) }
    ensures cheapest { IfOk result (λ p. AreCheapest lengths.now routing.now.routes (map links_in p.items)) }
{
    let routes = routing.routes.as_slice();
    let mut list = Vec::with_capacity(alloc, routes.len())?;
    for p in 0..routes.len() {
        let paths = routes[p].paths.as_slice();
        let place = cheapest(lengths, paths);
        let links = Vec::from_slice(alloc, paths[place].links.as_slice())?;
        list.push(Path {
            links: Items::new(links),
        })?;
    }
    Ok(list)
}

/// Writes the loads of the sweep in which each pair takes the cheapest path that it has in the routing, by the lengths.
///
/// `lengths` and `loads` have one number for each link, and `matrix` has one demand for each pair. Takes no memory.
pub fn load_cheapest(
    net: &Network,
    routing: &Routing,
    matrix: &Matrix,
    lengths: &[u64],
    loads: &mut [u128],
)
    requires routing { IsPathRouting net.now routing.now.routes }
    requires demands { AreDemands (length routing.now.routes) matrix.now.demand }
    requires lengths { length lengths.now ≡ link_count net.now }
    requires limit { All (λ l. l ≤ 2 ^ 28) lengths.now }
    requires count { length loads.old ≡ link_count net.now }
    ensures within { AreLoadsWithin net.now loads.new }
    ensures loads { (paths : List (List ℕ)) × ArePathsOfPairs net.now routing.now.routes paths × AreAmong routing.now.routes paths
        × AreCheapest lengths.now routing.now.routes paths × (loads.new ≡ sweep_loads net.now matrix.now.demand paths) }
{
    clear_loads(loads);
    let demand = matrix.demand.as_slice();
    let routes = routing.routes.as_slice();
    for p in 0..routes.len() {
        let paths = routes[p].paths.as_slice();
        let place = cheapest(lengths, paths);
        add_on(loads, paths[place].links.as_slice(), u128::from(demand[p]));
    }
}
