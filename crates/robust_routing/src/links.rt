//! The sweep over the links: what each pair may send over a link by its weights, and the step of these weights.
ghost use Rattle.std.specs.Prelude.{◌≡◌, ◌<◌, IfOk, IsTrue, OnOk};
ghost use Rattle.te_model.specs.Network.{is_well_formed, link_count};
ghost use Rattle.shortest_path.specs.declared.rows.Direction.TheVariants.{Forward};
ghost use Rattle.shortest_path.specs.Rows.{IsSearchGraph};
ghost use Rattle.robust_routing.specs.Joint.{IsRound};
ghost use Rattle.robust_routing.specs.Rows.{AreRows};
ghost use Rattle.robust_routing.specs.Weights.{AreLinkWeights, AreWeightsOfLinks};

use crate::loads::loads_near;
use crate::round::{NO_NODE, Round};
use crate::rows::{distance_in, first_rows, write_row};
use crate::sweep::{even_share, ratio_of};
use crate::table::Table;
use crate::weights::weights_after;
use shortest_path::Searches;
use std::alloc::Global;
use te_model::{Items, Memory, Network, capacity_by};

/// What the weights of a link say of the shares of all pairs.
#[derive(Clone, Copy)]
pub struct Finding {
    /// The ratio that they prove on the link, in millionths.
    pub ratio: u64,
    /// The greatest quotient of a share and what is allowed.
    pub greatest: u64,
}

/// The capacity of the link by the sum of all capacities by the weights.
fn factor_of(net: &Network, weights: &[u64], link: usize) -> u128
    requires network { IsTrue (is_well_formed net.now) }
    requires weights { AreLinkWeights net.now weights.now }
    requires link { link < link_count net.now }
{
    let volume = capacity_by(net, weights).max(1);
    let capacity = u128::from(net.links.as_slice()[link].capacity);
    capacity.saturating_mul(1 << 80) / volume
}

/// Writes the quotient of each pair on the link and the rows of the nodes from which pairs send, and says what the weights prove.
fn find(
    alloc: Global,
    round: &Round,
    searches: &mut Searches,
    weights: &[u64],
    link: usize,
    rows: &mut [Items<Option<u64>>],
    shares: &Table,
    quotients: &mut Table,
) -> Result<Finding, Memory>
    requires round { IsRound round.now }
    requires along { IsSearchGraph round.now.net.now Forward searches.old }
    requires weights { AreLinkWeights round.now.net.now weights.now }
    requires link { link < link_count round.now.net.now }
    requires rows { AreRows round.now.net.now rows.old }
    ensures rows { OnOk result (AreRows round.now.net.now rows.new) }
    ensures same { searches.new ≡ searches.old }
{
    let factor = factor_of(round.net, weights, link);
    let (mut ratio, mut greatest) = (0, 0);
    let mut from = NO_NODE;
    for p in 0..round.pairs.len() {
        let pair = round.pairs[p];
        if pair.src != from {
            write_row(alloc, round.net, searches, weights, pair.src, rows)?;
            from = pair.src;
        }
        let row = rows[pair.src as usize].as_slice();
        let even = even_share(factor, distance_in(row, pair.dst));
        let share = shares.number(link, p);
        let quotient = round.sweep.quotient(share, round.sweep.allowance(even));
        quotients.set(link, p, quotient);
        if share > 0 {
            ratio = ratio.max(ratio_of(share, even));
        }
        greatest = greatest.max(quotient);
    }
    Ok(Finding { ratio, greatest })
}

/// The sweep over one link: the weights after it, and the ratio that those before it prove.
fn sweep_link(
    alloc: Global,
    round: &Round,
    searches: &mut Searches,
    weights: &[u64],
    link: usize,
    rows: &mut [Items<Option<u64>>],
    shares: &Table,
    quotients: &mut Table,
) -> Result<(Vec<u64>, u64), Memory>
    requires round { IsRound round.now }
    requires along { IsSearchGraph round.now.net.now Forward searches.old }
    requires weights { AreLinkWeights round.now.net.now weights.now }
    requires link { link < link_count round.now.net.now }
    requires rows { AreRows round.now.net.now rows.old }
    ensures weights { IfOk result (λ f. AreLinkWeights round.now.net.now f.0.items) }
    ensures rows { OnOk result (AreRows round.now.net.now rows.new) }
    ensures same { searches.new ≡ searches.old }
{
    let finding = find(
        alloc, round, searches, weights, link, rows, shares, quotients,
    )?;
    let greatest = finding.greatest;
    let loads = loads_near(
        alloc, round, rows, weights, link, greatest, shares, quotients,
    )?;
    let after = weights_after(alloc, round.net, weights, &loads, round.sweep.parts)?;
    Ok((after, finding.ratio))
}

/// The sweep over each link: the weights after it, and the ratio that all weights before it prove, in millionths.
///
/// `shares` has the share of each pair on each link, and `quotients` is room for as many numbers. `Memory` comes where memory is
/// wanting.
pub fn sweep_links(
    alloc: Global,
    round: &Round,
    searches: &mut Searches,
    list: &[Items<u64>],
    shares: &Table,
    quotients: &mut Table,
) -> Result<(Vec<Items<u64>>, u64), Memory>
    requires round { IsRound round.now }
    requires along { IsSearchGraph round.now.net.now Forward searches.old }
    requires list { AreWeightsOfLinks round.now.net.now list.now }
    ensures weights { IfOk result (λ f. AreWeightsOfLinks round.now.net.now f.0.items) }
    ensures same { searches.new ≡ searches.old }
{
    let mut rows = first_rows(alloc, round.net)?;
    let mut next = Vec::with_capacity(alloc, list.len())?;
    let mut ratio = 0;
    for link in 0..list.len() {
        let weights = list[link].as_slice();
        let (after, found) = sweep_link(
            alloc, round, searches, weights, link, &mut rows, shares, quotients,
        )?;
        next.push(Items::new(after))?;
        ratio = ratio.max(found);
    }
    Ok((next, ratio))
}
