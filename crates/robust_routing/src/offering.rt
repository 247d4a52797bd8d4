//! The least path of a pair by its lengths, which it takes up where it costs less than its paths do.
ghost use Rattle.std.specs.Prelude.{◌≡◌, ℕ, ◌≤◌, IfOk, IfSome, OnOk, IsTrue, List, Option};
ghost use Rattle.te_model.specs.Network.{is_well_formed, link_count};
ghost use Rattle.te_model.specs.Path.{is_path};
ghost use Rattle.shortest_path.specs.declared.rows.Direction.TheVariants.{Backward};
ghost use Rattle.shortest_path.specs.Least.{IsLeastWalk, links_of};
ghost use Rattle.shortest_path.specs.Links.{every_link};
ghost use Rattle.shortest_path.specs.Paths.{sum_along};
ghost use Rattle.shortest_path.specs.Rows.{IsSearchGraph};
ghost use Rattle.scheme.specs.Reach.{IsPairOf};
ghost use Rattle.robust_routing.specs.Joint.{ArePathsWithin};
ghost use Rattle.robust_routing.specs.Lengths.{AreLengths};
ghost use Rattle.robust_routing.specs.Offers.{IsOffer, IsPlaceOf, IsTakenUp, cheaper_of, costs_of, is_cheaper};
ghost use Rattle.robust_routing.specs.Sweep.{IsSweep, capped};

use crate::moving::mean_cost;
use crate::rates::PathRates;
use crate::sweep::Sweep;
use shortest_path::{Searches, follow};
use std::alloc::Global;
use te_model::{Memory, Network, Pair, Path, number_at};

/// The sum of the lengths of the links.
fn cost_of(lengths: &[u64], links: &[u32]) -> u64
    ensures { result ≡ capped (sum_along lengths.now links.now) }
{
    let mut total: u64 = 0;
    for link in links {
        total = total.saturating_add(number_at(lengths, *link as usize));
    }
    total
}

/// The cost of each path by the lengths. `Memory` comes where memory is wanting.
pub fn costs_of(alloc: Global, lengths: &[u64], paths: &[Path]) -> Result<Vec<u64>, Memory>
    ensures { IfOk result (λ c. c.items ≡ costs_of lengths.now paths.now) }
{
    let mut costs = Vec::with_capacity(alloc, paths.len())?;
    for path in paths {
        costs.push(cost_of(lengths, path.links.as_slice()))?;
    }
    Ok(costs)
}

/// The place of the path with these links, or how many paths there are.
fn place_of(paths: &[Path], links: &[u32]) -> usize
    ensures { IsPlaceOf paths.now links.now result }
{
    for i in 0..paths.len() {
        if paths[i].links.as_slice() == links {
            return i;
        }
    }
    paths.len()
}

/// Whether a path of this cost, if there is one, is cheaper than the mean by more than a thousandth.
fn is_cheaper(cost: Option<u64>, mean: u64) -> bool
    ensures { result ≡ is_cheaper cost mean }
{
    match cost {
        Some(sum) => u128::from(sum) * 1000 < u128::from(mean) * 999,
        None => false,
    }
}

/// The least path of the pair by the lengths, if it costs less than the mean. The searches are against links, and every link is open.
fn cheaper_path(
    alloc: Global,
    net: &Network,
    searches: &mut Searches,
    open: &[bool],
    lengths: &[u64],
    pair: Pair,
    mean: u64,
) -> Result<Option<Path>, Memory>
    requires network { IsTrue (is_well_formed net.now) }
    requires against { IsSearchGraph net.now Backward searches.old }
    requires every { «open».now ≡ every_link net.now }
    requires lengths { AreLengths (link_count net.now) lengths.now }
    requires pair { IsPairOf net.now pair }
    ensures same { searches.new ≡ searches.old }
    ensures path { IfOk result (λ o. IfSome o (λ p. IsTrue (is_path net.now pair.src pair.dst p.links))) }
    ensures least { IfOk result (λ o. (walk : Option (List ℕ)) × IsLeastWalk net.now lengths.now «open».now pair.src pair.dst walk
        × (links_of o ≡ cheaper_of lengths.now mean walk)) }
{
    let mut sums = vec![in alloc; None; net.names.as_slice().len()]?;
    searches.toward(net, lengths, open, pair.dst, &mut sums);
    if !is_cheaper(sums[pair.src as usize], mean) {
        return Ok(None);
    }
    follow(alloc, net, lengths, open, &sums, pair.src, pair.dst)
}

/// Takes up the path with this rate. It takes the place of the slowest one where there are as many as the limit.
fn take_up(
    net: &Network,
    pair: Pair,
    rates: &mut PathRates,
    path: Path,
    rate: u64,
    limit: usize,
) -> Result<(), Memory>
    requires limit { 1 ≤ limit }
    requires path { IsTrue (is_path net.now pair.src pair.dst path.links) }
    requires rates { ArePathsWithin net.now limit pair rates.old.paths }
    ensures rates { OnOk result (ArePathsWithin net.now limit pair rates.new.paths) }
    ensures taken { OnOk result (IsTakenUp limit path rate rates.old rates.new) }
{
    let place = place_of(rates.paths(), path.links.as_slice());
    if place < rates.paths().len() {
        rates.wake(place, rate);
        Ok(())
    } else if rates.paths().len() < limit {
        rates.push(path, rate)
    } else {
        rates.replace_slowest(path, rate);
        Ok(())
    }
}

/// Takes up the least path of the pair by the lengths, where it costs less than the paths of the pair do in the mean.
///
/// The searches are against links, and every link is open. `Memory` comes where memory is wanting.
pub fn offer_least(
    alloc: Global,
    net: &Network,
    searches: &mut Searches,
    open: &[bool],
    lengths: &[u64],
    pair: Pair,
    sweep: Sweep,
    limit: usize,
    rates: &mut PathRates,
) -> Result<(), Memory>
    requires network { IsTrue (is_well_formed net.now) }
    requires against { IsSearchGraph net.now Backward searches.old }
    requires every { «open».now ≡ every_link net.now }
    requires lengths { AreLengths (link_count net.now) lengths.now }
    requires pair { IsPairOf net.now pair }
    requires sweep { IsSweep sweep }
    requires limit { 1 ≤ limit }
    requires rates { ArePathsWithin net.now limit pair rates.old.paths }
    ensures same { searches.new ≡ searches.old }
    ensures rates { OnOk result (ArePathsWithin net.now limit pair rates.new.paths) }
    ensures offer { OnOk result (IsOffer net.now sweep lengths.now pair limit rates.old rates.new) }
{
    let costs = costs_of(alloc, lengths, rates.paths())?;
    let mean = mean_cost(&costs, rates.rates());
    match cheaper_path(alloc, net, searches, open, lengths, pair, mean)? {
        Some(path) => take_up(net, pair, rates, path, sweep.first_rate(), limit),
        None => Ok(()),
    }
}
