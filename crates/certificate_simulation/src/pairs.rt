//! The pairs of a routing.
ghost use Rattle.std.specs.Prelude.{◌≡◌, IfOk};
ghost use Rattle.local_recovery.specs.Rates.{pairs_of};

use std::alloc::Global;
use te_model::{Memory, Pair, PairRoutes};

/// The pairs of the routes, in order. `Memory` comes where memory is wanting.
pub fn routed_pairs(alloc: Global, routes: &[PairRoutes]) -> Result<Vec<Pair>, Memory>
    ensures { IfOk result (λ pairs. pairs.items ≡ pairs_of routes.now) }
{
    let mut pairs = Vec::with_capacity(alloc, routes.len())?;
    for route in routes {
        pairs.push(route.pair)?;
    }
    Ok(pairs)
}
