//! The sweep over the pairs: each moves its rates by the prices of the links.
ghost use Rattle.std.specs.Prelude.{◌≡◌, ◌<◌, ◌≤◌, OnOk, IsTrue, length};
ghost use Rattle.te_model.specs.Network.{is_well_formed, link_count};
ghost use Rattle.shortest_path.specs.declared.rows.Direction.TheVariants.{Backward};
ghost use Rattle.shortest_path.specs.Links.{every_link};
ghost use Rattle.shortest_path.specs.Rows.{IsSearchGraph};
ghost use Rattle.robust_routing.specs.Joint.{ArePathsOfPairs, ArePathsWithin, IsRound};
ghost use Rattle.robust_routing.specs.Lengths.{AreLengths};
ghost use Rattle.robust_routing.specs.Offers.{AreShifts, IsShift};
ghost use Rattle.robust_routing.specs.Sweep.{looks};
ghost use Rattle.scheme.specs.Reach.{IsPairOf};

use crate::lengths::next_lengths;
use crate::offering::{costs_of, offer_least};
use crate::rates::PathRates;
use crate::round::Round;
use crate::tables::Tables;
use shortest_path::Searches;
use std::alloc::Global;
use te_model::{Memory, Pair};

/// Moves the rates of a pair by the lengths of the links. Where the pair looks for a path, it may take up one more before.
///
/// The searches are against links, and every link is open. `Memory` comes where memory is wanting.
pub fn shift_pair(
    alloc: Global,
    round: &Round,
    searches: &mut Searches,
    open: &[bool],
    lengths: &[u64],
    pair: Pair,
    looks: bool,
    limit: usize,
    rates: &mut PathRates,
) -> Result<(), Memory>
    requires round { IsRound round.now }
    requires against { IsSearchGraph round.now.net.now Backward searches.old }
    requires every { «open».now ≡ every_link round.now.net.now }
    requires lengths { AreLengths (link_count round.now.net.now) lengths.now }
    requires pair { IsPairOf round.now.net.now pair }
    requires limit { 1 ≤ limit }
    requires rates { ArePathsWithin round.now.net.now limit pair rates.old.paths }
    ensures same { searches.new ≡ searches.old }
    ensures rates { OnOk result (ArePathsWithin round.now.net.now limit pair rates.new.paths) }
    ensures shift { OnOk result (IsShift round.now.net.now round.now.sweep lengths.now pair looks limit rates.old rates.new) }
{
    let (net, sweep) = (round.net, round.sweep);
    if looks {
        offer_least(
            alloc, net, searches, open, lengths, pair, sweep, limit, rates,
        )?;
    }
    let costs = costs_of(alloc, lengths, rates.paths())?;
    rates.shift(sweep, &costs);
    Ok(())
}

/// The sweep over each pair: its prices of the links and its rates move. No pair has more paths than the limit.
///
/// The searches are against links, and every link is open. `Memory` comes where memory is wanting.
pub fn sweep_pairs(
    alloc: Global,
    round: &Round,
    searches: &mut Searches,
    open: &[bool],
    limit: usize,
    tables: &mut Tables,
    list: &mut [PathRates],
) -> Result<(), Memory>
    requires round { IsRound round.now }
    requires against { IsSearchGraph round.now.net.now Backward searches.old }
    requires every { «open».now ≡ every_link round.now.net.now }
    requires limit { 1 ≤ limit }
    requires list { ArePathsOfPairs round.now.net.now limit round.now.pairs.now list.old }
    ensures same { searches.new ≡ searches.old }
    ensures list { OnOk result (ArePathsOfPairs round.now.net.now limit round.now.pairs.now list.new) }
    ensures shifts { OnOk result (AreShifts round.now.net.now round.now.sweep (AreLengths (link_count round.now.net.now))
        round.now.pairs.now (looks round.now.sweep) limit list.old list.new) }
{
    for p in 0..list.len() {
        let lengths = next_lengths(alloc, round.sweep, tables, open.len(), p)?;
        let pair = round.pairs[p];
        let looks = round.sweep.looks(p);
        shift_pair(
            alloc,
            round,
            searches,
            open,
            &lengths,
            pair,
            looks,
            limit,
            &mut list[p],
        )?;
    }
    Ok(())
}
