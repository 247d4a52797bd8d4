//! What the pairs that are dearest to a link put on the links, where each takes a least way by the link's weights.
ghost use Rattle.std.specs.Prelude.{◌≡◌, ◌<◌, IfOk, IsTrue, length, replicate};
ghost use Rattle.te_model.specs.Network.{is_well_formed, link_count, node_count};
ghost use Rattle.centred_steps.specs.Loads.{AreLoadsWithin};
ghost use Rattle.centred_steps.specs.Ways.{AreLastLinks};
ghost use Rattle.robust_routing.specs.Joint.{IsRound};
ghost use Rattle.robust_routing.specs.Near.{AreLoadsNear};
ghost use Rattle.robust_routing.specs.Rows.{AreRows};
ghost use Rattle.robust_routing.specs.Weights.{AreLinkWeights};

use crate::round::{NO_NODE, Round};
use crate::sweep::WHOLE;
use crate::table::Table;
use centred_steps::{add_load_along, last_links};
use std::alloc::Global;
use te_model::{Items, Memory, Network};

/// A pair counts where it is nearer to the dearest than this part of the unit.
const LEAST_NEARNESS: u64 = WHOLE >> 13;

/// Writes the last links of the least ways from the node, whose row is in the rows.
fn turn(
    net: &Network,
    rows: &[Items<Option<u64>>],
    weights: &[u64],
    from: u32,
    lasts: &mut [Option<u32>],
)
    requires network { IsTrue (is_well_formed net.now) }
    requires rows { AreRows net.now rows.now }
    requires weights { AreLinkWeights net.now weights.now }
    requires from { from < node_count net.now }
    requires lasts { length lasts.old ≡ node_count net.now }
    ensures lasts { AreLastLinks net.now lasts.new }
{
    last_links(net, weights, rows[from as usize].as_slice(), lasts);
}

/// No last link for any node. `Memory` comes where memory is wanting.
fn no_lasts(alloc: Global, net: &Network) -> Result<Vec<Option<u32>>, Memory>
    ensures { IfOk result (λ l. AreLastLinks net.now l.items) }
{
    let lasts = vec![in alloc; None; net.names.as_slice().len()]?;
    Ok(lasts)
}

/// Adds the loads of the pairs that are near the dearest. `lasts` is room for the ways from a node.
fn add_near(
    round: &Round,
    rows: &[Items<Option<u64>>],
    weights: &[u64],
    link: usize,
    greatest: u64,
    shares: &Table,
    quotients: &Table,
    lasts: &mut [Option<u32>],
    loads: &mut [u128],
)
    requires round { IsRound round.now }
    requires rows { AreRows round.now.net.now rows.now }
    requires weights { AreLinkWeights round.now.net.now weights.now }
    requires lasts { AreLastLinks round.now.net.now lasts.old }
    requires loads { AreLoadsWithin round.now.net.now loads.old }
    ensures loads { AreLoadsWithin round.now.net.now loads.new }
    ensures near { AreLoadsNear round.now shares.now quotients.now link greatest loads.old (length round.now.pairs.now) loads.new }
{
    let net = round.net;
    let mut from = NO_NODE;
    for p in 0..round.pairs.len() {
        let quotient = quotients.number(link, p);
        let nearness = round.sweep.nearness(greatest, quotient);
        if nearness >= LEAST_NEARNESS {
            let pair = round.pairs[p];
            if pair.src != from {
                turn(net, rows, weights, pair.src, lasts);
                from = pair.src;
            }
            let amount = round
                .sweep
                .amount(nearness, quotient, shares.number(link, p));
            add_load_along(net, lasts, pair.dst, amount, loads);
        }
    }
}

/// The loads that the pairs near the dearest put on the links. Each node from which a pair sends has its row in the rows. `Memory`
/// comes where memory is wanting.
pub fn loads_near(
    alloc: Global,
    round: &Round,
    rows: &[Items<Option<u64>>],
    weights: &[u64],
    link: usize,
    greatest: u64,
    shares: &Table,
    quotients: &Table,
) -> Result<Vec<u128>, Memory>
    requires round { IsRound round.now }
    requires rows { AreRows round.now.net.now rows.now }
    requires weights { AreLinkWeights round.now.net.now weights.now }
    ensures loads { IfOk result (λ l. AreLoadsWithin round.now.net.now l.items) }
    ensures near { IfOk result (λ l. AreLoadsNear round.now shares.now quotients.now link greatest
        (replicate (link_count round.now.net.now) 0) (length round.now.pairs.now) l.items) }
{
    let mut loads = vec![in alloc; 0; round.net.links.as_slice().len()]?;
    let mut lasts = no_lasts(alloc, round.net)?;
    add_near(
        round, rows, weights, link, greatest, shares, quotients, &mut lasts, &mut loads,
    );
    Ok(loads)
}
