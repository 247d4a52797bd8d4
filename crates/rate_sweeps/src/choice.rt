//! The choice between two routings.
ghost use Rattle.std.specs.Prelude.{◌≡◌, ◌⊎◌, ◌^◌, ◌<◌, ◌≤◌, IfOk, IsTrue, length};
ghost use Rattle.te_model.specs.Network.{is_well_formed};
ghost use Rattle.routing.specs.Routes.{AreDemands};
ghost use Rattle.routing.specs.Utilisation.{parts};

use routing::Routing;
use std::alloc::Global;
use te_model::{Matrix, Memory, Network};

/// The routing of the lesser greatest utilisation, and the first where both have the same.
///
/// `matrix` has one demand for each pair of the routings. `Memory` comes where memory is wanting.
pub fn lesser(
    alloc: Global,
    net: &Network,
    matrix: &Matrix,
    first: Routing,
    second: Routing,
) -> Result<Routing, Memory>
    requires network { IsTrue (is_well_formed net.now) }
    requires pairs { length first.routes < 2 ^ 32 }
    requires count { length second.routes ≡ length first.routes }
    requires demands { AreDemands (length first.routes) matrix.now.demand }
    ensures either { IfOk result (λ r. (r.routes ≡ first.routes) ⊎ (r.routes ≡ second.routes)) }
    ensures first { IfOk result (λ r. parts net.now r.routes matrix.now.demand ≤ parts net.now first.routes matrix.now.demand) }
    ensures second { IfOk result (λ r. parts net.now r.routes matrix.now.demand ≤ parts net.now second.routes matrix.now.demand) }
    ensures kept { parts net.now first.routes matrix.now.demand ≤ parts net.now second.routes matrix.now.demand → IfOk result (λ r. r.routes ≡ first.routes) }
{
    let ours = first.greatest_utilisation(alloc, net, matrix)?;
    let theirs = second.greatest_utilisation(alloc, net, matrix)?;
    if theirs < ours { Ok(second) } else { Ok(first) }
}
