//! Moves, until no more of them helps.
ghost use Rattle.std.specs.Prelude.{◌≡◌, ◌↔◌, ◌<◌, ◌≤◌, ◌^◌, ℕ, List, IfNone, IfOk, IfSome, IsTrue, OnOk, length, map};
ghost use Rattle.te_model.specs.declared.network.Network.{Network};
ghost use Rattle.te_model.specs.declared.route.Pair.{Pair};
ghost use Rattle.te_model.specs.declared.route.PairRoutes.{PairRoutes};
ghost use Rattle.te_model.specs.Network.{is_well_formed, link_count};
ghost use Rattle.te_model.specs.Path.{routes_at};
ghost use Rattle.te_model.specs.PathRouting.{IsPathRouting};
ghost use Rattle.routing.specs.Merge.{links_at};
ghost use Rattle.routing.specs.Routes.{AreDemands, AreLoads, HasFewPaths, IsRoutingOf};
ghost use Rattle.routing.specs.Split.{are_splits};
ghost use Rattle.routing.specs.Utilisation.{parts};
ghost use Rattle.local_search.specs.Moves.{CanMove, HaveFewTogether, ImprovesBy1024th, IsMoved, IsStable, UsesOnly};
ghost use Rattle.local_search.specs.Pairs.{ArePairsOnLinks, HaveHolders};
ghost use Rattle.local_search.specs.Settling.{SettledSoFar};

use crate::greatest::peak_of;
use crate::pairs::PairsOnLinks;
use crate::search::{fitting_move, links_above};
use crate::shifting::{carry_move, take_move};
use crate::step::{Aim, Move};
use routing::Routing;
use std::alloc::Global;
use te_model::{Items, Matrix, Memory, Network, PairRoutes};

/// The greatest value that is an improvement on this one.
fn greatest_improvement(parts: u128) -> u128
    requires some { 1 ≤ parts }
    requires fits { parts ≤ 2 ^ 84 }
    ensures { (y : ℕ) → ImprovesBy1024th parts y ↔ (y ≤ result) }
{
    parts * 1023 / 1024
}

/// A move that lowers the greatest utilisation by a 1024th of it at least, and `None` exactly where
/// there is none. `loads` has the load of each link, and `holders` the pairs of which a path holds it.
///
/// `Memory` comes where memory is wanting.
fn next_move(
    alloc: Global,
    net: &Network,
    matrix: &Matrix,
    routes: &[PairRoutes],
    candidates: &[PairRoutes],
    holders: &PairsOnLinks,
    loads: &[u128],
) -> Result<Option<Move>, Memory>
    requires network { IsTrue (is_well_formed net.now) }
    requires splits { IsTrue (are_splits routes.now) }
    requires few { length routes.now < 2 ^ 32 }
    requires pairs { length candidates.now ≡ length routes.now }
    requires demands { AreDemands (length routes.now) matrix.now.demand }
    requires holders { HaveHolders (link_count net.now) routes.now holders.now }
    requires loads { AreLoads net.now matrix.now.demand routes.now loads.now }
    ensures place { IfOk result (λ o. IfSome o (λ m. m.target.candidate < length (routes_at candidates.now m.pair).paths)) }
    ensures some { IfOk result (λ o. IfSome o (λ m. CanMove routes.now candidates.now m.pair m.from (links_at (routes_at candidates.now m.pair).paths m.target.candidate) m.target.size)) }
    ensures improves { IfOk result (λ o. IfSome o (λ m. (moved : List PairRoutes) → IsMoved routes.now m.pair m.from (links_at (routes_at candidates.now m.pair).paths m.target.candidate) m.target.size moved → ImprovesBy1024th (parts net.now routes.now matrix.now.demand) (parts net.now moved matrix.now.demand))) }
    ensures none { IfOk result (λ o. IfNone o (IsStable net.now matrix.now.demand candidates.now routes.now)) }
{
    let peak = peak_of(net, loads);
    if peak.parts == 0 {
        return Ok(None);
    }
    let times = greatest_improvement(peak.parts);
    let above = links_above(alloc, net, loads, times)?;
    let aim = Aim {
        link: peak.link,
        times,
        above: Items::new(above),
    };
    let pairs = holders.on(peak.link);
    Ok(fitting_move(net, matrix, loads, &aim, routes, candidates, pairs))
}

// Makes one move after another among the routes, until none helps, and keeps the loads in step. `holders` has the pairs of
// which a path of the routes or of the candidates holds each link.
//
// `Memory` comes where memory is wanting.
fn make_moves(
    alloc: Global,
    net: &Network,
    matrix: &Matrix,
    candidates: &[PairRoutes],
    holders: &PairsOnLinks,
    routes: &mut [PairRoutes],
    loads: &mut [u128],
) -> Result<(), Memory>
    requires network { IsTrue (is_well_formed net.now) }
    requires few { length routes.old < 2 ^ 32 }
    requires demands { AreDemands (length routes.old) matrix.now.demand }
    requires routing { IsPathRouting net.now routes.old }
    requires others { IsPathRouting net.now candidates.now }
    requires pairs { map (λ r. r.pair) candidates.now ≡ map (λ r. r.pair) routes.old }
    requires holders { ArePairsOnLinks (link_count net.now) routes.old candidates.now holders.now }
    requires loads { AreLoads net.now matrix.now.demand routes.old loads.old }
    ensures settled { OnOk result (SettledSoFar net.now matrix.now.demand routes.old candidates.now routes.new loads.new) }
    ensures stable { OnOk result (IsStable net.now matrix.now.demand candidates.now routes.new) }
{
    'moves: while let Some(step) = next_move(
        alloc, net, matrix, routes, candidates, holders, loads,
    )? {
        carry_move(matrix, routes, candidates, loads, step);
        take_move(alloc, routes, candidates, step)?;
    }
    Ok(())
}

/// The routing after moves of weight between the paths of single pairs, until no move helps any
/// more: an approximate local optimum (Orlin, Punnen and Schulz, 2004).
///
/// A move takes 10,000, 100,000 or 1,000,000 millionths of a pair's demand, or the whole weight of
/// the path where it is less, to another path, which `candidates` has for the pair, whatever
/// its weight there is. It helps where it lowers the greatest utilisation, in millionths and rounded
/// up, by a 1024th at least. `matrix` has one demand for each pair, of at most 2^32. The routing uses
/// no other paths than it had and the candidates, and its greatest utilisation is no greater.
///
/// `Memory` comes where memory is wanting.
pub fn local_optimum(
    alloc: Global,
    net: &Network,
    matrix: &Matrix,
    routing: Routing,
    candidates: &Routing,
) -> Result<Routing, Memory>
    requires network { IsTrue (is_well_formed net.now) }
    requires few { length routing.routes < 2 ^ 32 }
    requires demands { AreDemands (length routing.routes) matrix.now.demand }
    requires routings { (pairs : List Pair) × IsRoutingOf net.now pairs routing.routes × IsRoutingOf net.now pairs candidates.now.routes }
    ensures routing { (pairs : List Pair) → IsRoutingOf net.now pairs routing.routes → IfOk result (λ r. IsRoutingOf net.now pairs r.routes) }
    ensures stable { IfOk result (λ r. IsStable net.now matrix.now.demand candidates.now.routes r.routes) }
    ensures parts { IfOk result (λ r. parts net.now r.routes matrix.now.demand ≤ parts net.now routing.routes matrix.now.demand) }
    ensures only { IfOk result (λ r. UsesOnly routing.routes candidates.now.routes r.routes) }
    ensures few { (limit : ℕ) → HaveFewTogether limit routing.routes candidates.now.routes → IfOk result (λ r. HasFewPaths limit r.routes) }
{
    let mut loads = routing.loads(alloc, net, matrix)?;
    let others = candidates.routes.as_slice();
    let holders = PairsOnLinks::new(alloc, net, routing.routes.as_slice(), others)?;
    let mut routes = routing.routes.into_vec();
    make_moves(
        alloc,
        net,
        matrix,
        others,
        &holders,
        &mut routes,
        &mut loads,
    )?;
    Ok(Routing {
        routes: Items::new(routes),
    })
}
