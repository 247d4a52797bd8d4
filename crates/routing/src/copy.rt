//! Copies of routes.
ghost use Rattle.std.specs.Prelude.{◌≡◌, IfOk};

use std::alloc::Global;
use te_model::{Items, Memory, PairRoutes, PathShare};

fn copy_of_paths(alloc: Global, paths: &[PathShare]) -> Result<Vec<PathShare>, Memory>
    ensures { IfOk result (λ copy. copy.items ≡ paths.now) }
{
    let mut copy = Vec::with_capacity(alloc, paths.len())?;
    for path in paths {
        let links = Vec::from_slice(alloc, path.links.as_slice())?;
        copy.push(PathShare {
            links: Items::new(links),
            weight: path.weight,
        })?;
    }
    Ok(copy)
}

/// A copy of the routes.
pub fn copy_of(alloc: Global, routes: &[PairRoutes]) -> Result<Vec<PairRoutes>, Memory>
    ensures { IfOk result (λ copy. copy.items ≡ routes.now) }
{
    let mut copy = Vec::with_capacity(alloc, routes.len())?;
    for route in routes {
        let paths = copy_of_paths(alloc, route.paths.as_slice())?;
        copy.push(PairRoutes {
            pair: route.pair,
            paths: Items::new(paths),
        })?;
    }
    Ok(copy)
}
