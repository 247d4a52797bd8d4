//! The paths of a pair, their links, and their allocations.
ghost use Rattle.std.specs.Prelude.{◌≡◌, ◌<◌, length};
ghost use Rattle.te_model.specs.Network.{capacity_of, link_count};
ghost use Rattle.te_model.specs.Path.{routes_at};
ghost use Rattle.fault_rates.specs.Plan.{allocations_at, links_of};

use crate::plan::RatePlan;
use te_model::{Network, PairRoutes, PathShare};

// How many links the network has.
pub(crate) fn link_count(net: &Network) -> usize
    ensures { result ≡ link_count net.now }
{
    net.links.as_slice().len()
}

// What the link carries.
pub(crate) fn capacity_of(net: &Network, link: usize) -> u64
    requires { link < link_count net.now }
    ensures { result ≡ capacity_of net.now link }
{
    net.links.as_slice()[link].capacity
}

// The paths of the pair.
pub(crate) fn paths_of(routes: &[PairRoutes], pair: usize) -> &[PathShare]
    requires { pair < length routes.now }
    ensures { result.now ≡ (routes_at routes.now pair).paths }
{
    routes[pair].paths.as_slice()
}

// The links of the path.
pub(crate) fn links_of(paths: &[PathShare], path: usize) -> &[u32]
    requires { path < length paths.now }
    ensures { result.now ≡ links_of paths.now path }
{
    paths[path].links.as_slice()
}

// The allocations of the paths of the pair.
pub(crate) fn allocations_of(plan: &RatePlan, pair: usize) -> &[u64]
    requires { pair < length plan.now.allocation }
    ensures { result.now ≡ allocations_at plan.now pair }
{
    plan.allocation.as_slice()[pair].as_slice()
}
