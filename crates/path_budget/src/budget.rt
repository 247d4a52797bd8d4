//! Few paths for each pair.
ghost use Rattle.std.specs.Prelude.{◌≡◌, ◌≤◌, ℕ, List, IfOk, IsTrue};
ghost use Rattle.te_model.specs.declared.network.Network.{Network};
ghost use Rattle.te_model.specs.declared.route.Pair.{Pair};
ghost use Rattle.routing.specs.Routes.{HasFewPaths, IsRoutingOf};
ghost use Rattle.routing.specs.Split.{is_split};
ghost use Rattle.path_budget.specs.Budget.{trimmed_routes, trimmed_pair};

use crate::heavy::heaviest;
use routing::{Routing, normalize};
use std::alloc::Global;
use te_model::{Items, Memory, PairRoutes};

/// The heaviest paths of one pair, with their weights scaled to the unit of shares.
fn trim_pair(alloc: Global, routes: &PairRoutes, budget: u32) -> Result<PairRoutes, Memory>
    requires split { IsTrue (is_split routes.now) }
    requires some { 1 ≤ budget }
    requires few { budget ≤ 32 }
    ensures { IfOk result (λ r. r ≡ trimmed_pair budget routes.now) }
{
    let kept = heaviest(alloc, routes.paths.as_slice(), budget)?;
    let paths = normalize(alloc, &kept)?;
    Ok(PairRoutes {
        pair: routes.pair,
        paths: Items::new(paths),
    })
}

/// The routing in which only the `budget` heaviest paths of each pair stay, ties to the earlier.
/// One million millionths are apportioned to them by their weights, in the order of the paths.
///
/// `Memory` comes where memory is wanting.
pub fn trim(alloc: Global, routing: &Routing, budget: u32) -> Result<Routing, Memory>
    requires some { 1 ≤ budget }
    requires few { budget ≤ 32 }
    ensures trimmed { IfOk result (λ r. r.routes ≡ trimmed_routes budget routing.now.routes) }
    ensures few { IfOk result (λ r. HasFewPaths budget r.routes) }
    ensures routing { (net : Network) → (pairs : List Pair) → IsRoutingOf net pairs routing.now.routes → IfOk result (λ r. IsRoutingOf net pairs r.routes) }
{
    let mut routes = Vec::new(alloc);
    for route in routing.routes.as_slice() {
        routes.push(trim_pair(alloc, route, budget)?)?;
    }
    Ok(Routing {
        routes: Items::new(routes),
    })
}
