//! Brackets whose bound holds for every split of a matrix over given paths.
ghost use Rattle.std.specs.Prelude.{◌≡◌, ◌^◌, ◌<◌, ◌≤◌, [], All, IfOk, IsTrue, length, slice_index};
ghost use Rattle.te_model.specs.LowerBound.{IsLowerBoundOnPaths};
ghost use Rattle.te_model.specs.Network.{is_well_formed, link_count};
ghost use Rattle.te_model.specs.PathRouting.{IsPathRouting};
ghost use Rattle.routing.specs.Routes.{AreDemands};
ghost use Rattle.scheme.specs.Low.{HasLow};
ghost use Rattle.shortest_path.specs.Paths.{sum_along};
ghost use Rattle.dual_bounds.specs.Choice.{IsBestOf};
ghost use Rattle.dual_bounds.specs.Dual.{IsBoundOf};
ghost use Rattle.dual_bounds.specs.GivenPaths.{link_lists, AreFewLinks, AreShortest, IsBracketOnPaths, IsShortest};

use crate::choice::better;
use crate::dual::{bracket_by, unit_lengths};
use routing::Routing;
use shortest_path::length_along;
use std::alloc::Global;
use te_model::{Bracket, Items, Matrix, Memory, Network, PairRoutes, PathShare};

/// The sum of the lengths along the path.
fn length_of(lengths: &[u64], path: &PathShare) -> u64
    requires limit { All (λ l. l ≤ 2 ^ 28) lengths.now }
    requires links { AreFewLinks (length lengths.now) path.now.links }
    ensures { result ≡ sum_along lengths.now path.now.links }
{
    length_along(lengths, path.links.as_slice()) as u64
}

/// The least sum of lengths along one of the paths, of which there is at least one.
fn shortest(lengths: &[u64], paths: &[PathShare]) -> u64
    requires limit { All (λ l. l ≤ 2 ^ 28) lengths.now }
    requires some { 0 < length paths.now }
    requires links { All (λ s. AreFewLinks (length lengths.now) s.links) paths.now }
    ensures { IsShortest lengths.now paths.now result }
{
    let mut least = length_of(lengths, &paths[0]);
    for path in paths {
        least = least.min(length_of(lengths, path));
    }
    least
}

/// The least sum of lengths along one of its paths, for each pair.
fn distances_along(
    alloc: Global,
    net: &Network,
    routes: &[PairRoutes],
    lengths: &[u64],
) -> Result<Vec<u64>, Memory>
    requires network { IsTrue (is_well_formed net.now) }
    requires routes { IsPathRouting net.now routes.now }
    requires lengths { length lengths.now ≡ link_count net.now }
    requires limit { All (λ l. l ≤ 2 ^ 28) lengths.now }
    ensures count { IfOk result (λ d. length d.items ≡ length routes.now) }
    ensures distances { IfOk result (λ d. AreShortest routes.now lengths.now (slice_index d.items)) }
{
    let mut distances = Vec::with_capacity(alloc, routes.len())?;
    for p in 0..routes.len() {
        distances.push(shortest(lengths, routes[p].paths.as_slice()))?;
    }
    Ok(distances)
}

/// The bracket that the lengths give by the least sums along the fixed paths, with `most` as the bound from above.
fn by_lengths(
    alloc: Global,
    net: &Network,
    fixed: &Routing,
    matrix: &Matrix,
    lengths: &[u64],
    most: u128,
) -> Result<Bracket, Memory>
    requires network { IsTrue (is_well_formed net.now) }
    requires fixed { IsPathRouting net.now fixed.now.routes }
    requires pairs { length fixed.now.routes < 2 ^ 32 }
    requires demands { AreDemands (length fixed.now.routes) matrix.now.demand }
    requires lengths { length lengths.now ≡ link_count net.now }
    requires limit { All (λ l. l ≤ 2 ^ 28) lengths.now }
    ensures lengths { IfOk result (λ b. b.lengths ≡ lengths.now) }
    ensures rows { IfOk result (λ b. b.rows ≡ []) }
    ensures bound { IfOk result (IsBoundOf net.now (length fixed.now.routes) matrix.now.demand most (AreShortest fixed.now.routes)) }
    ensures low { IfOk result HasLow }
{
    let distances = distances_along(alloc, net, fixed.routes.as_slice(), lengths)?;
    let lengths = Vec::from_slice(alloc, lengths)?;
    let rows = Vec::new(alloc);
    let demand = matrix.demand.as_slice();
    Ok(bracket_by(net, demand, &distances, lengths, rows, most))
}

/// A bracket of the utilisation that the matrix needs on the paths of the fixed routing: no split over them has a smaller one
/// than `low_num / low_den` (Garg and Könemann, 2007), and `parts` is that of the other routing. It has no rows.
///
/// Of the offered lengths and of lengths of 1 it has those with the greatest bound, in whole millionths. So the bound is at
/// least that of lengths of 1. Each list in `lengths` has one length of at most 2^28 for each link. The routings have the same
/// number of pairs, and `matrix` has one demand for each. `Memory` comes where memory is wanting.
pub fn bracket_on_paths(
    alloc: Global,
    net: &Network,
    fixed: &Routing,
    routing: &Routing,
    matrix: &Matrix,
    lengths: &[Items<u64>],
) -> Result<Bracket, Memory>
    requires network { IsTrue (is_well_formed net.now) }
    requires fixed { IsPathRouting net.now fixed.now.routes }
    requires count { length routing.now.routes ≡ length fixed.now.routes }
    requires pairs { length fixed.now.routes < 2 ^ 32 }
    requires demands { AreDemands (length fixed.now.routes) matrix.now.demand }
    requires lengths { All (λ l. length l ≡ link_count net.now) lengths.now }
    requires limit { All (λ l. All (λ x. x ≤ 2 ^ 28) l) lengths.now }
    ensures sound { IfOk result (IsBracketOnPaths net.now fixed.now.routes routing.now.routes matrix.now.demand) }
    ensures lower { IfOk result (λ b. IsLowerBoundOnPaths net.now (length fixed.now.routes) (link_lists fixed.now.routes) (slice_index matrix.now.demand) b.low_num b.low_den) }
    ensures best { IfOk result (IsBestOf net.now (length fixed.now.routes) matrix.now.demand (AreShortest fixed.now.routes) lengths.now) }
    ensures low { IfOk result HasLow }
{
    let most = routing.greatest_utilisation(alloc, net, matrix)?;
    let unit = unit_lengths(alloc, net)?;
    let mut best = by_lengths(alloc, net, fixed, matrix, &unit, most)?;
    for offered in lengths {
        let other = by_lengths(alloc, net, fixed, matrix, offered.as_slice(), most)?;
        best = better(best, other);
    }
    Ok(best)
}
