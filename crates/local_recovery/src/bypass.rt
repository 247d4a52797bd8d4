//! Paths that are led round failed links.
ghost use Rattle.std.specs.Prelude.{◌≡◌, ◌^◌, ◌≤◌, ◌<◌, All, IfOk, IsTrue, length, map, option_map};
ghost use Rattle.te_model.specs.Network.{is_well_formed, link_count};
ghost use Rattle.te_model.specs.Path.{is_path};
ghost use Rattle.shortest_path.specs.Least.{links_of};
ghost use Rattle.routing.specs.Split.{total_weight};
ghost use Rattle.local_recovery.specs.Recovery.{JoinEnds, AreParts, walk_over};

use routing::cut_loops;
use std::alloc::Global;
use te_model::{Items, Memory, Network, PairRoutes, Path, PathShare};

/// The walk over the bypass paths of the links, if each has one.
fn walk_over(
    alloc: Global,
    bypass_paths: &[Option<Path>],
    links: &[u32],
) -> Result<Option<Vec<u32>>, Memory>
    requires { All (λ h. h < length bypass_paths.now) links.now }
    ensures { IfOk result (λ w. option_map (λ v. v.items) w ≡ walk_over (map links_of bypass_paths.now) links.now) }
{
    let mut walk = Vec::new(alloc);
    for link in links {
        match &bypass_paths[*link as usize] {
            Some(path) => walk.extend_from_slice(path.links.as_slice())?,
            None => return Ok(None),
        }
    }
    Ok(Some(walk))
}

/// What is left of the pair's paths when each failed link is replaced, without loops.
pub fn parts(
    alloc: Global,
    net: &Network,
    bypass_paths: &[Option<Path>],
    routes: &PairRoutes,
) -> Result<Vec<PathShare>, Memory>
    requires paths { All (λ s. IsTrue (is_path net.now routes.now.pair.src routes.now.pair.dst s.links)) routes.now.paths }
    requires bypass_paths { JoinEnds net.now (map links_of bypass_paths.now) }
    ensures { IfOk result (λ v. AreParts net.now (map links_of bypass_paths.now) routes.now.pair.src routes.now.paths v.items) }
{
    let mut list = Vec::new(alloc);
    for path in routes.paths.as_slice() {
        if let Some(walk) = walk_over(alloc, bypass_paths, path.links.as_slice())? {
            let links = cut_loops(alloc, net, routes.pair.src, walk.as_slice())?;
            list.push(PathShare {
                links: Items::new(links),
                weight: path.weight,
            })?;
        }
    }
    Ok(list)
}
