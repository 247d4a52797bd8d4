//! What the schemes route in these tests: demands of the pairs of a small network.
ghost use Rattle.std.specs.Prelude.{◌≡◌, ◌∷◌, [], IfOk, IsTrue, length};
ghost use Rattle.te_model.specs.Network.{is_well_formed};
ghost use Rattle.routing.specs.Routes.{AreDemands};
ghost use Rattle.scheme.specs.Reach.{ArePairsOf};
ghost use Rattle.sample_networks.specs.Literals.{pair_of};
ghost use Rattle.sample_networks.specs.Networks.{parallel_links, two_nodes};

use routing::Routing;
use sample_networks::{matrix, pairs, parallel_links, two_nodes};
use scheme::{Scheme, SchemeFault};
use std::alloc::{AllocError, Global};
use te_model::{Matrix, Network, Pairs};

/// A network, its pairs, and the demand of each.
#[derive(Drop)]
pub struct Commodities {
    pub net: Network,
    pub pairs: Pairs,
    pub matrix: Matrix,
}

/// A demand of 40 over two parallel links of the capacities 10 and 30.
pub fn on_parallel_links(alloc: Global) -> Result<Commodities, AllocError>
    ensures net { IfOk result (λ c. c.net ≡ parallel_links) }
    ensures pairs { IfOk result (λ c. c.pairs.list ≡ pair_of (0, 1) ∷ []) }
    ensures matrix { IfOk result (λ c. c.matrix.demand ≡ 40 ∷ []) }
{
    let matrix = matrix(alloc, &[40])?;
    let pairs = pairs(alloc, &[(0, 1)])?;
    let net = parallel_links(alloc)?;
    Ok(Commodities { net, pairs, matrix })
}

/// Demands of 1 there and 2 back between two nodes with one link each way.
pub fn there_and_back(alloc: Global) -> Result<Commodities, AllocError>
    ensures net { IfOk result (λ c. c.net ≡ two_nodes) }
    ensures pairs { IfOk result (λ c. c.pairs.list ≡ pair_of (0, 1) ∷ pair_of (1, 0) ∷ []) }
    ensures matrix { IfOk result (λ c. c.matrix.demand ≡ 1 ∷ 2 ∷ []) }
{
    let matrix = matrix(alloc, &[1, 2])?;
    let pairs = pairs(alloc, &[(0, 1), (1, 0)])?;
    let net = two_nodes(alloc)?;
    Ok(Commodities { net, pairs, matrix })
}

/// The plan of the scheme, its routing of the demands, and the note on it.
pub fn plan_and_route<S: Scheme>(
    alloc: Global,
    scheme: &S,
    commodities: &Commodities,
) -> Result<(S::Plan, Routing, S::Note), SchemeFault>
    requires network { IsTrue (is_well_formed commodities.now.net) }
    requires pairs { ArePairsOf commodities.now.net commodities.now.pairs.list }
    requires demands { AreDemands (length commodities.now.pairs.list) commodities.now.matrix.demand }
    ensures { IfOk result (λ r. S.Note.has_low r.2) }
{
    let plan = scheme.prepare(alloc, &commodities.net, &commodities.pairs)?;
    let (routing, note) = scheme.route(alloc, &commodities.net, &plan, &commodities.matrix)?;
    Ok((plan, routing, note))
}
