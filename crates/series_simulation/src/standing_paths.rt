//! What stands of a set of paths where links have failed, and the matrix of the pairs of which a path stands.
ghost use Rattle.std.specs.Prelude.{◌≡◌, IfOk, IsTrue, filter, length};
ghost use Rattle.routing.specs.Split.{are_splits};
ghost use Rattle.series_simulation.specs.Connected.{demands_of};
ghost use Rattle.series_simulation.specs.StandingPaths.{has_some_path};

use routing::Routing;
use std::alloc::Global;
use te_model::{Items, Matrix, Memory, PairRoutes};

/// Whether the pair has a path.
fn has_some_path(routes: &PairRoutes) -> bool
    ensures { result ≡ has_some_path routes.now }
{
    !routes.paths.as_slice().is_empty()
}

/// The routing of the pairs that have a path, out of what is left of a routing. Takes no memory.
pub fn standing_routing(left: Items<PairRoutes>) -> Routing
    requires { IsTrue (are_splits (filter has_some_path left)) }
    ensures { result.routes ≡ filter has_some_path left }
{
    let mut routes = left.into_vec();
    routes.retain(|pair| has_some_path(pair));
    Routing {
        routes: Items::new(routes),
    }
}

/// The matrix of the pairs that have a path. `matrix` has one demand for each of the pairs of `left`.
pub fn standing_matrix(
    alloc: Global,
    left: &[PairRoutes],
    matrix: &Matrix,
) -> Result<Matrix, Memory>
    requires { length matrix.now.demand ≡ length left.now }
    ensures { IfOk result (λ m. m.demand ≡ demands_of has_some_path left.now matrix.now.demand) }
{
    let demand = matrix.demand.as_slice();
    let mut kept = Vec::new(alloc);
    for place in 0..left.len() {
        if has_some_path(&left[place]) {
            kept.push(demand[place])?;
        }
    }
    Ok(Matrix {
        demand: Items::new(kept),
    })
}
