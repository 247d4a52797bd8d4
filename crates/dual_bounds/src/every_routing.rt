//! Brackets whose bound holds for every routing of a matrix.
ghost use Rattle.std.specs.Prelude.{◌≡◌, ◌^◌, ◌<◌, ◌≤◌, All, IfOk, IsTrue, length, slice_index};
ghost use Rattle.te_model.specs.Laws.{PairsJoinNodes};
ghost use Rattle.te_model.specs.LowerBound.{IsLowerBound};
ghost use Rattle.te_model.specs.Network.{is_well_formed, link_count};
ghost use Rattle.te_model.specs.PathRouting.{IsPathRouting};
ghost use Rattle.routing.specs.Routes.{AreDemands};
ghost use Rattle.scheme.specs.Low.{HasLow};
ghost use Rattle.dual_bounds.specs.Choice.{IsBestOf};
ghost use Rattle.dual_bounds.specs.Dual.{IsBoundOf};
ghost use Rattle.dual_bounds.specs.Rows.{sources_of, AreDistancesUnder, AreSourceRows, IsBracket};

use crate::choice::better;
use crate::dual::{bracket_by, unit_lengths};
use crate::rows::{distances_by, rows_of, sources_of};
use routing::Routing;
use std::alloc::Global;
use te_model::{Bracket, Items, Matrix, Memory, Network};

/// The bracket that the lengths give by the rows of the sources, with `most` as the bound from above.
fn by_lengths(
    alloc: Global,
    net: &Network,
    routing: &Routing,
    matrix: &Matrix,
    sources: &[u32],
    lengths: &[u64],
    most: u128,
) -> Result<Bracket, Memory>
    requires network { IsTrue (is_well_formed net.now) }
    requires routing { IsPathRouting net.now routing.now.routes }
    requires nodes { PairsJoinNodes net.now routing.now.routes }
    requires pairs { length routing.now.routes < 2 ^ 32 }
    requires demands { AreDemands (length routing.now.routes) matrix.now.demand }
    requires sources { sources.now ≡ sources_of net.now routing.now.routes }
    requires lengths { length lengths.now ≡ link_count net.now }
    requires limit { All (λ l. l ≤ 2 ^ 28) lengths.now }
    ensures lengths { IfOk result (λ b. b.lengths ≡ lengths.now) }
    ensures rows { IfOk result (λ b. AreSourceRows net.now b.lengths (sources_of net.now routing.now.routes) b.rows) }
    ensures bound { IfOk result (IsBoundOf net.now (length routing.now.routes) matrix.now.demand most (AreDistancesUnder net.now routing.now.routes)) }
    ensures low { IfOk result HasLow }
{
    let routes = routing.routes.as_slice();
    let rows = rows_of(alloc, net, lengths, sources)?;
    let distances = distances_by(alloc, &rows, routes)?;
    let lengths = Vec::from_slice(alloc, lengths)?;
    let demand = matrix.demand.as_slice();
    Ok(bracket_by(net, demand, &distances, lengths, rows, most))
}

/// A bracket of the utilisation that the matrix needs: no routing of it has a smaller one than `low_num / low_den` (Garg and
/// Könemann, 2007), and `parts` is that of the given routing.
///
/// Of the offered lengths and of lengths of 1 it has those with the greatest bound, in whole millionths. So the bound is at
/// least that of lengths of 1. Each list in `lengths` has one length of at most 2^28 for each link, and `matrix` has one demand
/// for each pair of the routing. `Memory` comes where memory is wanting.
pub fn bracket(
    alloc: Global,
    net: &Network,
    routing: &Routing,
    matrix: &Matrix,
    lengths: &[Items<u64>],
) -> Result<Bracket, Memory>
    requires network { IsTrue (is_well_formed net.now) }
    requires routing { IsPathRouting net.now routing.now.routes }
    requires nodes { PairsJoinNodes net.now routing.now.routes }
    requires pairs { length routing.now.routes < 2 ^ 32 }
    requires demands { AreDemands (length routing.now.routes) matrix.now.demand }
    requires lengths { All (λ l. length l ≡ link_count net.now) lengths.now }
    requires limit { All (λ l. All (λ x. x ≤ 2 ^ 28) l) lengths.now }
    ensures sound { IfOk result (IsBracket net.now routing.now.routes matrix.now.demand) }
    ensures lower { IfOk result (λ b. IsLowerBound net.now routing.now.routes (slice_index matrix.now.demand) b.low_num b.low_den) }
    ensures best { IfOk result (IsBestOf net.now (length routing.now.routes) matrix.now.demand (AreDistancesUnder net.now routing.now.routes) lengths.now) }
    ensures low { IfOk result HasLow }
{
    let most = routing.greatest_utilisation(alloc, net, matrix)?;
    let sources = sources_of(alloc, net, routing.routes.as_slice())?;
    let unit = unit_lengths(alloc, net)?;
    let mut best = by_lengths(alloc, net, routing, matrix, &sources, &unit, most)?;
    for offered in lengths {
        let lengths = offered.as_slice();
        let other = by_lengths(alloc, net, routing, matrix, &sources, lengths, most)?;
        best = better(best, other);
    }
    Ok(best)
}
