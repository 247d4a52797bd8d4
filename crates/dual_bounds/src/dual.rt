//! The bracket of lengths, once the distances of the pairs are known.
ghost use Rattle.std.specs.Prelude.{◌≡◌, ◌^◌, ◌<◌, ◌≤◌, All, IfOk, IsTrue, length, slice_index};
ghost use Rattle.te_model.specs.Network.{is_well_formed, link_count};
ghost use Rattle.routing.specs.Routes.{AreDemands};
ghost use Rattle.dual_bounds.specs.Dual.{demand_by, unit_lengths, IsBoundBy};

use std::alloc::Global;
use te_model::{Bracket, Items, Memory, Network, Row, capacity_by};

/// A length of 1 for each link.
pub fn unit_lengths(alloc: Global, net: &Network) -> Result<Vec<u64>, Memory>
    ensures lengths { IfOk result (λ l. l.items ≡ unit_lengths net.now) }
    ensures count { IfOk result (λ l. length l.items ≡ link_count net.now) }
    ensures limit { IfOk result (λ l. All (λ x. x ≤ 2 ^ 28) l.items) }
{
    let unit = vec![in alloc; 1; net.links.as_slice().len()]?;
    Ok(unit)
}

/// The sum of the demands of the pairs by their distances.
fn demand_by(demand: &[u64], distances: &[u64]) -> u128
    requires pairs { length distances.now < 2 ^ 32 }
    requires demands { AreDemands (length distances.now) demand.now }
    ensures { result ≡ demand_by (length distances.now) demand.now (slice_index distances.now) }
{
    let mut total: u128 = 0;
    for p in 0..distances.len() {
        total += u128::from(demand[p]) * u128::from(distances[p]);
    }
    total
}

/// The bracket of the lengths, with the bound that the distances of the pairs under them give, and `most` as that from above.
pub fn bracket_by(
    net: &Network,
    demand: &[u64],
    distances: &[u64],
    lengths: Vec<u64>,
    rows: Vec<Row>,
    most: u128,
) -> Bracket
    requires network { IsTrue (is_well_formed net.now) }
    requires pairs { length distances.now < 2 ^ 32 }
    requires demands { AreDemands (length distances.now) demand.now }
    requires lengths { length lengths.items ≡ link_count net.now }
    requires limit { All (λ l. l ≤ 2 ^ 28) lengths.items }
    ensures bound { IsBoundBy net.now (length distances.now) demand.now most (slice_index distances.now) result }
    ensures lengths { result.lengths ≡ lengths.items }
    ensures rows { result.rows ≡ rows.items }
{
    let low_num = demand_by(demand, distances);
    let low_den = capacity_by(net, &lengths).max(1);
    Bracket {
        low_num,
        low_den,
        lengths: Items::new(lengths),
        rows: Items::new(rows),
        parts: most,
    }
}
