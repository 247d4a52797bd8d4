//! The lengths of the links for a pair: one more than what they cost it.
ghost use Rattle.std.specs.Prelude.{◌≡◌, ◌^◌, ◌<◌, IfOk, OnOk};
ghost use Rattle.robust_routing.specs.Lengths.{AreLengths};
ghost use Rattle.robust_routing.specs.Prices.{AreByPrices, ArePricesMoved, greatest_quotient, next_price};
ghost use Rattle.robust_routing.specs.Sweep.{IsSweep};

use crate::sweep::Sweep;
use crate::table::Table;
use crate::tables::Tables;
use std::alloc::Global;
use te_model::Memory;

/// The greatest quotient of the pair on a link.
fn greatest_quotient(quotients: &Table, links: usize, pair: usize) -> u64
    ensures { result ≡ greatest_quotient quotients.now links pair }
{
    let mut greatest = 0;
    for link in 0..links {
        greatest = greatest.max(quotients.number(link, pair));
    }
    greatest
}

/// The price of the link for the pair after the sweep, where this is the greatest quotient of the pair.
fn next_price(sweep: Sweep, tables: &Tables, link: usize, pair: usize, greatest: u64) -> u64
    requires { IsSweep sweep }
    ensures exact { result ≡ next_price sweep tables.now link pair greatest }
    ensures limit { result < 2 ^ 28 }
{
    let quotient = tables.quotients.number(link, pair);
    let nearness = sweep.nearness(greatest, quotient);
    let share = tables.shares.number(link, pair);
    sweep.price(tables.prices.number(pair, link), nearness, quotient, share)
}

/// The lengths of so many links for the pair, whose prices of them move by the sweep. `Memory` comes where memory is wanting.
pub fn next_lengths(
    alloc: Global,
    sweep: Sweep,
    tables: &mut Tables,
    links: usize,
    pair: usize,
) -> Result<Vec<u64>, Memory>
    requires { IsSweep sweep }
    ensures lengths { IfOk result (λ l. AreLengths links l.items) }
    ensures exact { IfOk result (λ l. AreByPrices sweep tables.old links pair links l.items) }
    ensures prices { OnOk result (ArePricesMoved sweep links pair links tables.old tables.new) }
{
    let greatest = greatest_quotient(&tables.quotients, links, pair);
    let mut lengths = Vec::with_capacity(alloc, links)?;
    for link in 0..links {
        let price = next_price(sweep, tables, link, pair, greatest);
        tables.prices.set(pair, link, price);
        lengths.push(price + 1)?;
    }
    Ok(lengths)
}
