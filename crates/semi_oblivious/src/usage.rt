//! Lengths that are great on the most used links.
ghost use Rattle.std.specs.Prelude.{◌≡◌, ◌^◌, ◌<◌, ◌≤◌, All, IfOk, IsTrue, length, map};
ghost use Rattle.te_model.specs.Network.{is_well_formed, link_count};
ghost use Rattle.routing.specs.Routes.{AreDemands};
ghost use Rattle.rate_sweeps.specs.Lengths.{greatest_number};
ghost use Rattle.semi_oblivious.specs.Lengths.{AreUsageLengths, length_by_usage, lengths_by_usage, square_of};

use rate_sweeps::{greatest_number, loads_by_capacity};
use routing::Routing;
use std::alloc::Global;
use te_model::{Items, Matrix, Memory, Network};

/// The length of the most used links.
const GREATEST: u64 = 1 << 14;

/// How many lists of lengths are offered.
const LISTS: usize = 7;

/// The share of the greatest usage, of at most `GREATEST`.
fn length_by_usage(usage: u128, most: u128) -> u64
    requires usage { usage < 2 ^ 84 }
    requires most { 1 ≤ most }
    ensures small { result ≤ 2 ^ 14 }
    ensures length { result ≡ length_by_usage most usage }
{
    let share = usage * u128::from(GREATEST) / most;
    share.min(u128::from(GREATEST)) as u64
}

/// A length for each link by its share of the greatest usage.
fn lengths_by_usage(alloc: Global, usage: &[u128]) -> Result<Vec<u64>, Memory>
    requires small { All (λ x. x < 2 ^ 84) usage.now }
    ensures count { IfOk result (λ l. length l.items ≡ length usage.now) }
    ensures small { IfOk result (λ l. All (λ x. x ≤ 2 ^ 14) l.items) }
    ensures lengths { IfOk result (λ l. l.items ≡ lengths_by_usage usage.now 0) }
{
    let most = greatest_number(usage);
    let mut lengths = Vec::with_capacity(alloc, usage.len())?;
    for u in usage {
        lengths.push(length_by_usage(*u, most))?;
    }
    Ok(lengths)
}

/// The square of a length, over `GREATEST`.
fn square_of(length: u64) -> u64
    requires { length ≤ 2 ^ 14 }
    ensures small { result ≤ 2 ^ 14 }
    ensures square { result ≡ square_of length }
{
    length * length / GREATEST
}

/// The squares of the lengths, over `GREATEST`: the same for the most used links, and less for all others.
fn squares_of(alloc: Global, lengths: &[u64]) -> Result<Vec<u64>, Memory>
    requires small { All (λ x. x ≤ 2 ^ 14) lengths.now }
    ensures count { IfOk result (λ l. length l.items ≡ length lengths.now) }
    ensures small { IfOk result (λ l. All (λ x. x ≤ 2 ^ 14) l.items) }
    ensures squares { IfOk result (λ l. l.items ≡ map square_of lengths.now) }
{
    let mut squares = Vec::with_capacity(alloc, lengths.len())?;
    for x in lengths {
        squares.push(square_of(*x))?;
    }
    Ok(squares)
}

/// Seven lists of lengths that are great on the most used links of the routing: by their usage, its square, the square of that, and
/// so on. At the best routing of a matrix only links of the greatest utilisation have a price (by linear programming duality), so
/// one of these lists bounds it well. In each there is one length of at most 2^14 for each link.
///
/// `matrix` has one demand for each pair of the routing. `Memory` comes where memory is wanting.
pub fn usage_lengths(
    alloc: Global,
    net: &Network,
    routing: &Routing,
    matrix: &Matrix,
) -> Result<Vec<Items<u64>>, Memory>
    requires network { IsTrue (is_well_formed net.now) }
    requires pairs { length routing.now.routes < 2 ^ 32 }
    requires demands { AreDemands (length routing.now.routes) matrix.now.demand }
    ensures count { IfOk result (λ v. All (λ l. length l ≡ link_count net.now) v.items) }
    ensures small { IfOk result (λ v. All (λ l. All (λ x. x ≤ 2 ^ 28) l) v.items) }
    ensures exact { IfOk result (λ v. AreUsageLengths net.now matrix.now.demand routing.now.routes v.items) }
{
    let loads = routing.loads(alloc, net, matrix)?;
    let usage = loads_by_capacity(alloc, net, &loads)?;
    let mut lengths = lengths_by_usage(alloc, &usage)?;
    let mut lists = Vec::with_capacity(alloc, LISTS)?;
    for _ in 0..LISTS {
        let next = squares_of(alloc, &lengths)?;
        lists.push(Items::new(lengths))?;
        lengths = next;
    }
    Ok(lists)
}
