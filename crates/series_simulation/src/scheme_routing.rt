//! The routing that a scheme gives for a step.
ghost use Rattle.std.specs.Prelude.{◌≡◌, ◌≤◌, IfOk, IsTrue, filter, length};
ghost use Rattle.std.specs.Option.{option_map};
ghost use Rattle.te_model.specs.Network.{is_well_formed};
ghost use Rattle.routing.specs.Routes.{AreDemands, HasFewPaths};
ghost use Rattle.scheme.specs.Reach.{ArePairsOf};
ghost use Rattle.series_simulation.specs.Connected.{TellsPaths, connects};
ghost use Rattle.series_simulation.specs.Rows.{AreDemandsIfSome, IsRouted, bound_of_sent, given_demands};

use crate::connected_pairs::connected_matrix;
use crate::preparation::Preparation;
use routing::Routing;
use scheme::{LowNote, Scheme};
use std::alloc::Global;
use te_model::{Matrix, Memory, Network, Pairs};

/// A scheme's routing, before any recovery.
#[derive(Drop)]
pub struct SchemeRouting {
    pub routing: Routing,
    /// The greatest utilisation by the routing, in millionths, rounded up.
    pub parts: u128,
    /// The lower bound of what is sent that the scheme noted, in millionths, if it has one.
    pub low: Option<u128>,
}

/// The matrix that a scheme is given: the predicted one, or the one that is sent.
pub fn given_matrix<'a>(predicted: Option<&'a Matrix>, sent: &'a Matrix) -> &'a Matrix
    ensures { result.now.demand ≡ given_demands (option_map (λ m. m.now.demand) predicted.entry) sent.now.demand }
{
    match predicted {
        Some(matrix) => matrix,
        None => sent,
    }
}

/// The bound of what is sent: of a predicted matrix there is none.
pub fn bound_of_sent(predicted: Option<&Matrix>, bound: Option<u128>) -> Option<u128>
    ensures { result ≡ bound_of_sent (option_map (λ m. m.now.demand) predicted.entry) bound }
{
    match predicted {
        Some(_) => None,
        None => bound,
    }
}

/// The scheme's routing of the pairs that have a path in the network, and of the matrix of these pairs that it is given: the predicted
/// one, if there is one, or the matrix that is sent.
///
/// `predicted` and `matrix` have one demand for each of `pairs`. `Memory` comes where memory is wanting.
pub fn route_connected<S: Scheme>(
    alloc: Global,
    scheme: &S,
    net: &Network,
    prepared: &Preparation<S::Plan>,
    pairs: &Pairs,
    predicted: Option<&Matrix>,
    matrix: &Matrix,
) -> Result<SchemeRouting, Memory>
    requires network { IsTrue (is_well_formed net.now) }
    requires pairs { ArePairsOf net.now pairs.now.list }
    requires tells { TellsPaths net.now (connects prepared.now.reach) }
    requires planned { S.is_plan scheme.now net.now (filter (connects prepared.now.reach) pairs.now.list) prepared.now.plan }
    requires predicted { AreDemandsIfSome (length pairs.now.list) (option_map (λ m. m.now.demand) predicted) }
    requires demands { AreDemands (length pairs.now.list) matrix.now.demand }
    ensures routed { IfOk result (λ r. IsRouted S.PATHS (S.is_plan scheme.now) (S.relates scheme.now) S.Note.low net.now pairs.now.list
        (option_map (λ m. m.now.demand) predicted.entry) matrix.now.demand prepared.now.plan r.routing.routes r.parts r.low) }
    ensures few { IfOk result (λ r. HasFewPaths S.PATHS r.routing.routes) }
{
    let given = given_matrix(predicted, matrix);
    let reached = connected_matrix(alloc, &prepared.reach, pairs, given)?;
    let (routing, note) = scheme.route(alloc, net, &prepared.plan, &reached)?;
    let sent = connected_matrix(alloc, &prepared.reach, pairs, matrix)?;
    let parts = routing.greatest_utilisation(alloc, net, &sent)?;
    let low = bound_of_sent(predicted, note.low());
    Ok(SchemeRouting {
        routing,
        parts,
        low,
    })
}
