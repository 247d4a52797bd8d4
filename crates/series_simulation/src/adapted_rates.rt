//! The rates that a scheme chooses anew over those paths of a plan that stand.
ghost use Rattle.std.specs.Prelude.{◌≡◌, ◌^◌, ◌<◌, ◌≤◌, ℕ, List, Option, Some, IfOk, IsTrue, filter, length};
ghost use Rattle.std.specs.Option.{option_map};
ghost use Rattle.te_model.specs.declared.route.Pair.{Pair};
ghost use Rattle.te_model.specs.Network.{is_well_formed, link_count};
ghost use Rattle.te_model.specs.Pairs.{AscendPairs};
ghost use Rattle.te_model.specs.PathRouting.{IsPathRouting};
ghost use Rattle.routing.specs.Routes.{AreDemands, HasFewPaths, IsRoutingOf};
ghost use Rattle.routing.specs.Utilisation.{parts};
ghost use Rattle.scheme.specs.Adaptive.{KeepsTo};
ghost use Rattle.scheme.specs.Reach.{ArePairsOf};
ghost use Rattle.local_recovery.specs.Rates.{pairs_of};
ghost use Rattle.local_recovery.specs.Spread.{IsSublist};
ghost use Rattle.series_simulation.specs.Connected.{TellsPaths, connects, demands_of};
ghost use Rattle.series_simulation.specs.Rows.{AreDemandsIfSome, IsAdaptedOn, bound_of_sent, given_demands};
ghost use Rattle.series_simulation.specs.StandingPaths.{has_some_path, standing_demands, standing_routes};

use crate::connected_pairs::connected_matrix;
use crate::preparation::Preparation;
use crate::reachability::Reachability;
use crate::scheme_routing::{SchemeRouting, bound_of_sent, given_matrix};
use crate::standing_paths::{standing_matrix, standing_routing};
use local_recovery::{Mode, recover};
use routing::Routing;
use scheme::Adaptive;
use std::alloc::Global;
use te_model::{Matrix, Memory, Network, PairRoutes, Pairs};

/// The paths that stand of a routing, and the matrices of the pairs of which a path stands.
#[derive(Drop)]
struct Standing {
    routing: Routing,
    /// What the scheme is given.
    given: Matrix,
    /// What is sent.
    sent: Matrix,
}

/// The matrix of those pairs that have a path in the network, and of which a path stands.
fn matrix_of_standing(
    alloc: Global,
    reach: &Reachability,
    left: &[PairRoutes],
    pairs: &Pairs,
    matrix: &Matrix,
) -> Result<Matrix, Memory>
    requires demands { length matrix.now.demand ≡ length pairs.now.list }
    requires left { length left.now ≡ length (filter (connects reach.now) pairs.now.list) }
    ensures { IfOk result (λ m. m.demand ≡ demands_of has_some_path left.now (demands_of (connects reach.now) pairs.now.list matrix.now.demand)) }
{
    let reached = connected_matrix(alloc, reach, pairs, matrix)?;
    standing_matrix(alloc, left, &reached)
}

/// What stands of the routing over a set of paths where the marked links have failed.
fn standing_of(
    alloc: Global,
    net: &Network,
    failed: &[bool],
    reach: &Reachability,
    paths: &Routing,
    pairs: &Pairs,
    predicted: Option<&Matrix>,
    matrix: &Matrix,
) -> Result<Standing, Memory>
    requires network { IsTrue (is_well_formed net.now) }
    requires marks { length failed.now ≡ link_count net.now }
    requires routing { IsRoutingOf net.now (filter (connects reach.now) pairs.now.list) paths.now.routes }
    requires few { HasFewPaths 4096 paths.now.routes }
    requires predicted { AreDemandsIfSome (length pairs.now.list) (option_map (λ m. m.now.demand) predicted) }
    requires demands { AreDemands (length pairs.now.list) matrix.now.demand }
    ensures routing { IfOk result (λ s. s.routing.routes ≡ standing_routes failed.now paths.now.routes) }
    ensures given { IfOk result (λ s. s.given.demand ≡ standing_demands failed.now paths.now.routes
        (demands_of (connects reach.now) pairs.now.list (given_demands (option_map (λ m. m.now.demand) predicted.entry) matrix.now.demand))) }
    ensures sent { IfOk result (λ s. s.sent.demand ≡ standing_demands failed.now paths.now.routes (demands_of (connects reach.now) pairs.now.list matrix.now.demand)) }
{
    let left = recover(alloc, Mode::Scale, net, failed, paths)?.routes;
    let routes = left.as_slice();
    let given = matrix_of_standing(alloc, reach, routes, pairs, given_matrix(predicted, matrix))?;
    let sent = matrix_of_standing(alloc, reach, routes, pairs, matrix)?;
    Ok(Standing {
        routing: standing_routing(left),
        given,
        sent,
    })
}

/// The scheme's rates over the paths that stand, their greatest utilisation by what is sent, and the bound of that.
fn rates_over<S: Adaptive>(
    alloc: Global,
    scheme: &S,
    net: &Network,
    standing: &Standing,
    predicted: Option<&Matrix>,
) -> Result<SchemeRouting, Memory>
    requires network { IsTrue (is_well_formed net.now) }
    requires standing { (pairs : List Pair) × IsRoutingOf net.now pairs standing.now.routing.routes }
    requires few { HasFewPaths S.Scheme.PATHS standing.now.routing.routes }
    requires pairs { length standing.now.routing.routes < 2 ^ 32 }
    requires given { AreDemands (length standing.now.routing.routes) standing.now.given.demand }
    requires sent { AreDemands (length standing.now.routing.routes) standing.now.sent.demand }
    ensures routing { (pairs : List Pair) → IsRoutingOf net.now pairs standing.now.routing.routes → IfOk result (λ r. IsRoutingOf net.now pairs r.routing.routes) }
    ensures few { IfOk result (λ r. HasFewPaths S.Scheme.PATHS r.routing.routes) }
    ensures keeps { IfOk result (λ r. KeepsTo standing.now.routing.routes r.routing.routes) }
    ensures adapted { IfOk result (λ r. (bound : Option ℕ) × S.adapts scheme.now net.now standing.now.routing.routes standing.now.given.demand r.routing.routes bound
        × (r.low ≡ bound_of_sent (option_map (λ m. m.now.demand) predicted.entry) bound)) }
    ensures most { IfOk result (λ r. r.parts ≡ parts net.now r.routing.routes standing.now.sent.demand) }
{
    let (routing, bound) = scheme.adapt_rates(alloc, net, &standing.routing, &standing.given)?;
    let parts = routing.greatest_utilisation(alloc, net, &standing.sent)?;
    let low = bound_of_sent(predicted, bound);
    Ok(SchemeRouting {
        routing,
        parts,
        low,
    })
}

/// The rates that the scheme chooses anew over those paths of its plan's set that hold no failed link, for the pairs that keep a path.
///
/// `paths` is the plan's set. `failed` has one mark for each link, and `predicted` and `matrix` one demand for each of `pairs`. `Memory`
/// comes where memory is wanting.
pub fn adapt<S: Adaptive>(
    alloc: Global,
    scheme: &S,
    net: &Network,
    prepared: &Preparation<S::Plan>,
    paths: &Routing,
    failed: &[bool],
    pairs: &Pairs,
    predicted: Option<&Matrix>,
    matrix: &Matrix,
) -> Result<SchemeRouting, Memory>
    requires network { IsTrue (is_well_formed net.now) }
    requires marks { length failed.now ≡ link_count net.now }
    requires pairs { ArePairsOf net.now pairs.now.list }
    requires ascending { AscendPairs pairs.now.list }
    requires paths { S.Scheme.PATHS ≤ 4096 }
    requires set { S.path_set_routes scheme.now prepared.now.plan ≡ Some paths.now.routes }
    requires tells { TellsPaths net.now (connects prepared.now.reach) }
    requires planned { S.Scheme.is_plan scheme.now net.now (filter (connects prepared.now.reach) pairs.now.list) prepared.now.plan }
    requires predicted { AreDemandsIfSome (length pairs.now.list) (option_map (λ m. m.now.demand) predicted) }
    requires demands { AreDemands (length pairs.now.list) matrix.now.demand }
    ensures adapted { IfOk result (λ r. IsAdaptedOn S.Scheme.PATHS (S.Scheme.is_plan scheme.now) (S.Scheme.relates scheme.now) S.Note.low (S.path_set_routes scheme.now) (S.adapts scheme.now)
        net.now failed.now pairs.now.list (option_map (λ m. m.now.demand) predicted.entry) matrix.now.demand prepared.now.plan paths.now.routes
        r.routing.routes r.parts r.low) }
    ensures routing { IfOk result (λ r. IsPathRouting net.now r.routing.routes) }
    ensures pairs { IfOk result (λ r. IsSublist (pairs_of r.routing.routes) pairs.now.list) }
    ensures few { IfOk result (λ r. HasFewPaths S.Scheme.PATHS r.routing.routes) }
{
    let standing = standing_of(
        alloc,
        net,
        failed,
        &prepared.reach,
        paths,
        pairs,
        predicted,
        matrix,
    )?;
    let routed = rates_over(alloc, scheme, net, &standing, predicted)?;
    Ok(routed)
}
