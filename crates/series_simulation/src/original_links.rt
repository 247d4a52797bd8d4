//! Routings of a part of a network, by the numbers that its links have in the whole network.
ghost use Rattle.std.specs.Prelude.{◌≡◌, ◌<◌, All, AllPairs, IfOk, length};
ghost use Rattle.series_simulation.specs.OriginalLinks.{HasLinksBelow, HavePathsBelow, original_routes, original_pair, original_path};

use routing::Routing;
use std::alloc::Global;
use te_model::{Items, Memory, PairRoutes, PathShare};

/// The path by the numbers of the whole network.
fn original_path(alloc: Global, origin: &[u32], path: &PathShare) -> Result<PathShare, Memory>
    requires { HasLinksBelow (length origin.now) path.now }
    ensures { IfOk result (λ p. p ≡ original_path origin.now path.now) }
{
    let mut links = Vec::new(alloc);
    for link in path.links.as_slice() {
        links.push(origin[*link as usize])?;
    }
    Ok(PathShare {
        links: Items::new(links),
        weight: path.weight,
    })
}

/// The paths of the pair by the numbers of the whole network.
fn original_pair(alloc: Global, origin: &[u32], routes: &PairRoutes) -> Result<PairRoutes, Memory>
    requires { HavePathsBelow (length origin.now) routes.now }
    ensures { IfOk result (λ r. r ≡ original_pair origin.now routes.now) }
{
    let mut paths = Vec::new(alloc);
    for path in routes.paths.as_slice() {
        paths.push(original_path(alloc, origin, path)?)?;
    }
    Ok(PairRoutes {
        pair: routes.pair,
        paths: Items::new(paths),
    })
}

/// The routing by the numbers that the links have in the whole network, which are those of `origin`, ascending.
///
/// `Memory` comes where memory is wanting.
pub fn original_routes(alloc: Global, origin: &[u32], routing: &Routing) -> Result<Routing, Memory>
    requires ascending { AllPairs (λ g h. g < h) origin.now }
    requires links { All (HavePathsBelow (length origin.now)) routing.now.routes }
    ensures { IfOk result (λ r. r.routes ≡ original_routes origin.now routing.now.routes) }
{
    let mut routes = Vec::new(alloc);
    for pair in routing.routes.as_slice() {
        routes.push(original_pair(alloc, origin, pair)?)?;
    }
    Ok(Routing {
        routes: Items::new(routes),
    })
}
