//! The matrices that an attack tries.
ghost use Rattle.std.specs.Prelude.{◌≡◌, ◌^◌, ◌<◌, ◌≤◌, IfOk, nat_le};
ghost use Rattle.std.specs.List.{list_all};
ghost use Rattle.witness_search.specs.Candidates.{alone, as_list, base_tried, bounds_tried, direct_capacities, direct_capacity};
ghost use Rattle.witness_search.specs.RouteLimits.{HasSmallLinks};

use crate::attempt::Tried;
use crate::capacities::capacity_between;
use std::alloc::Global;
use te_model::{Head, Items, Matrix, Memory, Network, Pair};

/// The demand of a pair alone: ratios do not depend on it.
const DEMAND_ALONE: u64 = 1_000_000;

/// The greatest demand of a witness.
const MOST: u64 = 1 << 32;

/// One pair alone, with a demand of one million.
pub fn alone(alloc: Global, pairs: usize, pair: usize) -> Result<Tried, Memory>
    requires { pair < pairs }
    ensures { IfOk result (λ t. t ≡ alone pairs pair) }
{
    let mut demand = vec![in alloc; 0; pairs]?;
    demand[pair] = DEMAND_ALONE;
    Ok(Tried {
        place: pair,
        demand: Matrix {
            demand: Items::new(demand),
        },
        x: 1,
        y: 1,
    })
}

// What the links from the source of the pair to its destination carry, cut at the greatest demand of a witness.
fn direct_capacity(net: &Network, pair: Pair) -> u64
    requires { HasSmallLinks net.now }
    ensures { result ≡ direct_capacity net.now pair }
{
    capacity_between(net, pair).min(MOST)
}

/// What the links from the source of each pair to its destination carry: each pair can send it over these alone.
pub fn direct_capacities(alloc: Global, head: &Head) -> Result<Tried, Memory>
    requires { HasSmallLinks head.now.network }
    ensures { IfOk result (λ t. t ≡ direct_capacities head.now) }
{
    let routes = head.routes.as_slice();
    let mut demand = Vec::with_capacity(alloc, routes.len())?;
    for route in routes {
        demand.push(direct_capacity(&head.network, route.pair))?;
    }
    Ok(Tried {
        place: routes.len(),
        demand: Matrix {
            demand: Items::new(demand),
        },
        x: 1,
        y: 1,
    })
}

/// The same matrix once more. `Memory` comes where memory is wanting.
pub fn copy_of(alloc: Global, matrix: &Matrix) -> Result<Matrix, Memory>
    ensures { IfOk result (λ m. m ≡ matrix.now) }
{
    let copy = Vec::from_slice(alloc, matrix.demand.as_slice())?;
    Ok(Matrix {
        demand: Items::new(copy),
    })
}

/// The base of a margin: `den * den` times it is the lower bound.
pub fn base_of(alloc: Global, den: u64, base: &Matrix) -> Result<Tried, Memory>
    requires { den ≤ 1000 }
    ensures { IfOk result (λ t. t ≡ base_tried den base.now) }
{
    let demand = copy_of(alloc, base)?;
    let square = den * den;
    Ok(Tried {
        place: 0,
        demand,
        x: 1,
        y: square,
    })
}

// Whether each number is a demand of a witness.
fn are_small(numbers: &[u64]) -> bool
    ensures { result ≡ list_all (λ d. nat_le d (2 ^ 32)) numbers.now }
{
    numbers.iter().all(|d| *d <= MOST)
}

/// A bound of a box, where its numbers are small enough for a witness.
pub fn bound_of(alloc: Global, place: usize, bound: &Matrix) -> Result<Option<Tried>, Memory>
    ensures { IfOk result (λ o. as_list o ≡ bounds_tried place bound.now) }
{
    if are_small(bound.demand.as_slice()) {
        let demand = copy_of(alloc, bound)?;
        Ok(Some(Tried {
            place,
            demand,
            x: 1,
            y: 1,
        }))
    } else {
        Ok(None)
    }
}
