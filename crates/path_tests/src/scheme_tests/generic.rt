//! What generic code may rely on: each law of the traits is used once here.
ghost use Rattle.std.specs.Prelude.{◌≡◌, ◌≤◌, ℕ, List, IfOk, IsTrue, length, MatchResult};
ghost use Rattle.te_model.specs.declared.route.Pair.{Pair};
ghost use Rattle.te_model.specs.Network.{is_well_formed};
ghost use Rattle.routing.specs.Routes.{AreDemands, HasFewPaths, IsRoutingOf};
ghost use Rattle.scheme.specs.Reach.{ArePairsOf};

use routing::Routing;
use scheme::{LowNote, Oblivious, Scheme, SchemeFault};
use std::alloc::Global;
use te_model::{Matrix, Network, Pairs};

/// Plans, routes one matrix, and gives the routing that stands for every matrix with the note's bound.
pub fn planned<S: Oblivious>(
    alloc: Global,
    scheme: &S,
    net: &Network,
    pairs: &Pairs,
    matrix: &Matrix,
) -> Result<(Routing, Option<u128>), SchemeFault>
    requires network { IsTrue (is_well_formed net.now) }
    requires pairs { ArePairsOf net.now pairs.now.list }
    requires demands { AreDemands (length pairs.now.list) matrix.now.demand }
    ensures routing { IfOk result (λ r. IsRoutingOf net.now pairs.now.list r.0.routes) }
    ensures few { IfOk result (λ r. HasFewPaths S.Scheme.PATHS r.0.routes) }
    ensures planned { IfOk result (λ r. (plan : S.Plan) × (note : S.Note) × S.Scheme.is_plan scheme.now net.now pairs.now.list plan × S.Scheme.relates scheme.now net.now pairs.now.list plan matrix.now.demand r.0.routes note × (S.fixed_routes scheme.now plan ≡ r.0.routes)) }
{
    let plan = scheme.prepare(alloc, net, pairs)?;
    let (routing, note) = scheme.route(alloc, net, &plan, matrix)?;
    let low = note.low();
    Ok((routing, low))
}

/// Plans, and copies the routing that stands for every matrix.
pub fn fixed_copy<S: Oblivious>(
    alloc: Global,
    scheme: &S,
    net: &Network,
    pairs: &Pairs,
) -> Result<Routing, SchemeFault>
    requires network { IsTrue (is_well_formed net.now) }
    requires pairs { ArePairsOf net.now pairs.now.list }
    ensures routing { IfOk result (λ r. IsRoutingOf net.now pairs.now.list r.routes) }
    ensures few { IfOk result (λ r. HasFewPaths S.Scheme.PATHS r.routes) }
    ensures related { IfOk result (λ r. (plan : S.Plan) × S.Scheme.is_plan scheme.now net.now pairs.now.list plan × ((demand : List ℕ) → AreDemands (length pairs.now.list) demand → (note : S.Note) × S.Scheme.relates scheme.now net.now pairs.now.list plan demand r.routes note)) }
{
    let plan = scheme.prepare(alloc, net, pairs)?;
    let routing = scheme.fixed(&plan).copy(alloc)?;
    Ok(routing)
}
