//! Rates lowered to what the weights of the links allow.
ghost use Rattle.std.specs.Prelude.{◌≡◌, IfOk, OnOk, length};
ghost use Rattle.robust_routing.specs.Lowering.{AreLowerings, AreLowered, lowered_rate, rate_below};
ghost use Rattle.robust_routing.specs.Sweep.{IsSweep};

use crate::rates::PathRates;
use crate::sweep::Sweep;
use crate::tables::Tables;
use std::alloc::Global;
use te_model::{Memory, number_at};

/// What a share may have above what is allowed, as one of so many parts of that: so near the step of rates sees it.
const PARTS_ABOVE: u64 = 32;

/// The rate in the proportion of the greatest share that may stay and the share, where the share is greater, and at least 1.
fn lowered_rate(rate: u64, allowed: u64, share: u64) -> u64
    ensures { result ≡ lowered_rate rate allowed share }
{
    let most = allowed.saturating_add(allowed / PARTS_ABOVE);
    if most >= share {
        return rate;
    }
    let part = u128::from(rate).saturating_mul(u128::from(most)) / u128::from(share);
    (part.min(u128::from(rate)) as u64).max(1)
}

/// The rate of a path of the pair, lowered so far that no link of the path has much more of the pair than its weights allow.
fn rate_on(sweep: Sweep, tables: &Tables, pair: usize, links: &[u32], rate: u64) -> u64
    requires { IsSweep sweep }
    ensures { result ≡ rate_below sweep tables.now pair links.now rate (length links.now) }
{
    let mut least = rate;
    for link in links {
        let share = tables.shares.number(*link as usize, pair);
        let quotient = tables.quotients.number(*link as usize, pair);
        let allowed = sweep.allowed(share, quotient);
        least = least.min(lowered_rate(rate, allowed, share));
    }
    least
}

/// The rate of each path of the pair, lowered to what the weights of its links allow. `Memory` comes where memory is wanting.
fn lowered_rates(
    alloc: Global,
    sweep: Sweep,
    tables: &Tables,
    pair: usize,
    rates: &PathRates,
) -> Result<Vec<u64>, Memory>
    requires { IsSweep sweep }
    ensures { IfOk result (λ l. AreLowered sweep tables.now pair rates.now l.items) }
{
    let paths = rates.paths();
    let mut lowered = Vec::with_capacity(alloc, paths.len())?;
    for i in 0..paths.len() {
        let rate = number_at(rates.rates(), i);
        lowered.push(rate_on(sweep, tables, pair, paths[i].links.as_slice(), rate))?;
    }
    Ok(lowered)
}

/// Lowers the rates of each pair to what the weights of the links allow of its shares, and scales them to the whole.
///
/// The step of rates does not see a share that is far below its slack, also where a link allows it next to nothing. `Memory` comes
/// where memory is wanting.
pub fn lower_rates(
    alloc: Global,
    sweep: Sweep,
    tables: &Tables,
    list: &mut [PathRates],
) -> Result<(), Memory>
    requires { IsSweep sweep }
    ensures { OnOk result (AreLowerings sweep tables.now list.old list.new) }
{
    for p in 0..list.len() {
        let rates = lowered_rates(alloc, sweep, tables, p, &list[p])?;
        list[p].set_rates(rates);
    }
    Ok(())
}
