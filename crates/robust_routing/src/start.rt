//! Where the rates begin: one path for each pair, that of a routing or its least one by inverse capacities.
ghost use Rattle.std.specs.Prelude.{◌≡◌, ◌≤◌, IfOk, IsTrue, OnOk, length, true};
ghost use Rattle.te_model.specs.Network.{is_well_formed, link_count};
ghost use Rattle.te_model.specs.PathRouting.{IsPathSplit};
ghost use Rattle.shortest_path.specs.declared.rows.Direction.TheVariants.{Backward};
ghost use Rattle.shortest_path.specs.Links.{every_link};
ghost use Rattle.shortest_path.specs.Rows.{IsSearchGraph};
ghost use Rattle.robust_routing.specs.Joint.{ArePathsOfPairs, ArePathsWithin, IsRound};
ghost use Rattle.robust_routing.specs.Lengths.{AreLengths};
ghost use Rattle.robust_routing.specs.Offers.{AreShifts};
ghost use Rattle.routing.specs.Routes.{HasFewPaths, IsRoutingOf};

use crate::pairs::shift_pair;
use crate::rates::PathRates;
use crate::round::Round;
use multiplicative_lengths::lengths_of;
use routing::Routing;
use shortest_path::Searches;
use std::alloc::Global;
use te_model::{Items, Memory, Network, Pair, PairRoutes, Path};

/// The whole demand of a pair over its first path.
fn first_rates(alloc: Global, net: &Network, route: &PairRoutes) -> Result<PathRates, Memory>
    requires { IsPathSplit net.now route.now }
    ensures { IfOk result (λ r. ArePathsWithin net.now 1 route.now.pair r.paths) }
{
    let path = &route.paths.as_slice()[0];
    let links = Vec::from_slice(alloc, path.links.as_slice())?;
    let links = Items::new(links);
    PathRates::new(alloc, Path { links })
}

/// The whole demand of each pair over the first path of its routes. `Memory` comes where memory is wanting.
pub fn rates_of(
    alloc: Global,
    net: &Network,
    pairs: &[Pair],
    routing: &Routing,
) -> Result<Vec<PathRates>, Memory>
    requires { IsRoutingOf net.now pairs.now routing.now.routes }
    ensures { IfOk result (λ l. ArePathsOfPairs net.now 1 pairs.now l.items) }
{
    let routes = routing.routes.as_slice();
    let mut list = Vec::with_capacity(alloc, routes.len())?;
    for p in 0..routes.len() {
        list.push(first_rates(alloc, net, &routes[p])?)?;
    }
    Ok(list)
}

/// The length of each link: the greatest capacity over its own, rounded up, and at most 2^28. `Memory` comes where memory is wanting.
pub fn inverse_capacities(alloc: Global, net: &Network) -> Result<Vec<u64>, Memory>
    requires { IsTrue (is_well_formed net.now) }
    ensures { IfOk result (λ l. AreLengths (link_count net.now) l.items) }
{
    let ones = vec![in alloc; 1; net.links.as_slice().len()]?;
    let lengths = lengths_of(alloc, net, &ones)?;
    Ok(lengths)
}

/// Moves the whole demand of each pair to its least path by the lengths, where its own path is longer by more than a thousandth.
///
/// The searches are against links, and every link is open. `Memory` comes where memory is wanting.
pub fn move_to_least(
    alloc: Global,
    round: &Round,
    searches: &mut Searches,
    open: &[bool],
    lengths: &[u64],
    list: &mut [PathRates],
) -> Result<(), Memory>
    requires round { IsRound round.now }
    requires against { IsSearchGraph round.now.net.now Backward searches.old }
    requires every { «open».now ≡ every_link round.now.net.now }
    requires lengths { AreLengths (link_count round.now.net.now) lengths.now }
    requires list { ArePathsOfPairs round.now.net.now 1 round.now.pairs.now list.old }
    ensures same { searches.new ≡ searches.old }
    ensures list { OnOk result (ArePathsOfPairs round.now.net.now 1 round.now.pairs.now list.new) }
    ensures shifts { OnOk result (AreShifts round.now.net.now round.now.sweep (λ l. l ≡ lengths.now)
        round.now.pairs.now (λ _. true) 1 list.old list.new) }
{
    for p in 0..list.len() {
        let pair = round.pairs[p];
        shift_pair(
            alloc,
            round,
            searches,
            open,
            lengths,
            pair,
            true,
            1,
            &mut list[p],
        )?;
    }
    Ok(())
}
