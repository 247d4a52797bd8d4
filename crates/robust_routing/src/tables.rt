//! The tables that sweeps read and write: of shares, of quotients and of prices.
use crate::rates::PathRates;
use crate::table::Table;
use std::alloc::Global;
use te_model::{Memory, Path, number_at};

/// What is known of each link and pair.
#[derive(Drop)]
pub struct Tables {
    /// By link and pair: the share of the pair on the link, in parts of `WHOLE`.
    pub shares: Table,
    /// By link and pair: the quotient of that share and what the link's weights allow.
    pub quotients: Table,
    /// By pair and link: what the link costs the pair.
    pub prices: Table,
}

/// Tables of zeros for so many links and pairs. `Memory` comes where memory is wanting.
pub fn first_tables(alloc: Global, links: usize, pairs: usize) -> Result<Tables, Memory> {
    let shares = Table::new(alloc, links, pairs)?;
    let quotients = Table::new(alloc, links, pairs)?;
    let prices = Table::new(alloc, pairs, links)?;
    Ok(Tables {
        shares,
        quotients,
        prices,
    })
}

/// Adds the rate to the shares of the pair on the links.
fn add_rate(shares: &mut Table, pair: usize, links: &[u32], rate: u64) {
    for link in links {
        let share = shares.number(*link as usize, pair);
        shares.set(*link as usize, pair, share.saturating_add(rate));
    }
}

/// Adds the rate of each path to the shares of the pair on its links.
fn add_rates(shares: &mut Table, pair: usize, paths: &[Path], rates: &[u64]) {
    for i in 0..paths.len() {
        let rate = number_at(rates, i);
        if rate > 0 {
            add_rate(shares, pair, paths[i].links.as_slice(), rate);
        }
    }
}

/// Writes the shares of all pairs.
pub fn write_shares(shares: &mut Table, list: &[PathRates]) {
    shares.clear();
    for pair in 0..list.len() {
        add_rates(shares, pair, list[pair].paths(), list[pair].rates());
    }
}
