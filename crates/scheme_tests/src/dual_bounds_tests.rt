//! Bounds from lengths below what any routing needs, on two parallel links.
ghost use Rattle.std.specs.Prelude.{◌≡◌, ◌^◌, ◌≤◌, ◌∷◌, [], IfOk};
ghost use Rattle.scheme.specs.Low.{HasLow};
ghost use Rattle.sample_networks.specs.Networks.{parallel_links};
ghost use Rattle.scheme_tests.specs.DualBoundsSamples.{first_alone, halves};

use crate::commodities::{Commodities, on_parallel_links};
use dual_bounds::*;
use routing::Routing;
use sample_networks::weighted_routes;
use scheme::LowNote;
use std::alloc::{AllocError, Global};
use te_model::{Bracket, Items, Memory};

fn offer(alloc: Global, first: u64, second: u64) -> Result<Vec<Items<u64>>, AllocError>
    ensures { IfOk result (λ l. l.items ≡ (first ∷ second ∷ []) ∷ []) }
{
    let lengths = vec![in alloc; first, second]?;
    let offered = vec![in alloc; Items::new(lengths)]?;
    Ok(offered)
}

/// Whether the bracket has these lengths, and these bounds in millionths.
fn is_bracket(bracket: &Bracket, lengths: &[u64], low: u128, parts: u128) -> bool
    requires { HasLow bracket.now }
{
    bracket.lengths.as_slice() == lengths && bracket.low() == Some(low) && bracket.parts == parts
}

/// Whether the only row is that of the first node, from which the second has a distance of 1.
fn has_row_of_first(bracket: &Bracket) -> bool {
    match bracket.rows.as_slice() {
        [row] => row.source == 0 && row.potential.as_slice() == [0, 1].as_slice(),
        _ => false,
    }
}

/// Half of the demand over each link.
fn halves(alloc: Global) -> Result<Routing, AllocError>
    ensures { IfOk result (λ r. r.routes ≡ halves) }
{
    let routes = weighted_routes(alloc, &[(0, 1, &[(&[0], 500_000), (&[1], 500_000)])])?;
    Ok(Routing { routes })
}

/// The bracket of the halves, where these lengths are offered.
fn bracket_of_halves(
    alloc: Global,
    commodities: &Commodities,
    routing: &Routing,
    first: u64,
    second: u64,
) -> Result<Bracket, Memory>
    requires net { commodities.now.net ≡ parallel_links }
    requires matrix { commodities.now.matrix.demand ≡ 40 ∷ [] }
    requires routing { routing.now.routes ≡ halves }
    requires first { first ≤ 2 ^ 28 }
    requires second { second ≤ 2 ^ 28 }
    ensures { IfOk result HasLow }
{
    let offered = offer(alloc, first, second)?;
    bracket(
        alloc,
        &commodities.net,
        routing,
        &commodities.matrix,
        &offered,
    )
}

/// Whether the halves have the bracket of lengths of 1, where these lengths are offered.
fn has_even_bracket(
    alloc: Global,
    commodities: &Commodities,
    routing: &Routing,
    first: u64,
    second: u64,
) -> bool
    requires net { commodities.now.net ≡ parallel_links }
    requires matrix { commodities.now.matrix.demand ≡ 40 ∷ [] }
    requires routing { routing.now.routes ≡ halves }
    requires first { first ≤ 2 ^ 28 }
    requires second { second ≤ 2 ^ 28 }
{
    match bracket_of_halves(alloc, commodities, routing, first, second) {
        Ok(bracket) => {
            is_bracket(&bracket, &[1, 1], 1_000_000, 2_000_000) & has_row_of_first(&bracket)
        }
        Err(_) => false,
    }
}

fn halves_have_even_bracket(
    alloc: Global,
    commodities: &Commodities,
    first: u64,
    second: u64,
) -> bool
    requires net { commodities.now.net ≡ parallel_links }
    requires matrix { commodities.now.matrix.demand ≡ 40 ∷ [] }
    requires first { first ≤ 2 ^ 28 }
    requires second { second ≤ 2 ^ 28 }
{
    match halves(alloc) {
        Ok(routing) => has_even_bracket(alloc, commodities, &routing, first, second),
        Err(_) => false,
    }
}

/// Whether half of the demand over each link has the bracket of lengths of 1, where these lengths are offered.
fn is_even_bracket_best(alloc: Global, first: u64, second: u64) -> bool
    requires first { first ≤ 2 ^ 28 }
    requires second { second ≤ 2 ^ 28 }
{
    match on_parallel_links(alloc) {
        Ok(commodities) => halves_have_even_bracket(alloc, &commodities, first, second),
        Err(_) => false,
    }
}

#[test]
fn no_bound_is_greater_than_that_of_even_lengths(rt: HostRuntime) {
    let alloc = rt.alloc();
    // Lengths of 1 give 40 / 40 for every routing, and no sound bound is greater.
    assert!(rt; is_even_bracket_best(alloc, 3, 1));
    assert!(rt; is_even_bracket_best(alloc, 2, 2));
    assert!(rt; is_even_bracket_best(alloc, 0, 0));
    assert!(rt; is_even_bracket_best(alloc, 1, 1));
}

/// All of the demand over the first link.
fn first_alone(alloc: Global) -> Result<Routing, AllocError>
    ensures { IfOk result (λ r. r.routes ≡ first_alone) }
{
    let routes = weighted_routes(alloc, &[(0, 1, &[(&[0], 1_000_000)])])?;
    Ok(Routing { routes })
}

/// The bracket of the demand on the first link alone, where these lengths are offered.
fn bracket_of_first(
    alloc: Global,
    commodities: &Commodities,
    fixed: &Routing,
    first: u64,
    second: u64,
) -> Result<Bracket, Memory>
    requires net { commodities.now.net ≡ parallel_links }
    requires matrix { commodities.now.matrix.demand ≡ 40 ∷ [] }
    requires fixed { fixed.now.routes ≡ first_alone }
    requires first { first ≤ 2 ^ 28 }
    requires second { second ≤ 2 ^ 28 }
    ensures { IfOk result HasLow }
{
    let offered = offer(alloc, first, second)?;
    bracket_on_paths(
        alloc,
        &commodities.net,
        fixed,
        fixed,
        &commodities.matrix,
        &offered,
    )
}

/// Whether the first link alone has this bracket without rows, where these lengths are offered.
fn has_bracket(
    alloc: Global,
    commodities: &Commodities,
    fixed: &Routing,
    first: u64,
    second: u64,
    lengths: &[u64],
    low: u128,
) -> bool
    requires net { commodities.now.net ≡ parallel_links }
    requires matrix { commodities.now.matrix.demand ≡ 40 ∷ [] }
    requires fixed { fixed.now.routes ≡ first_alone }
    requires first { first ≤ 2 ^ 28 }
    requires second { second ≤ 2 ^ 28 }
{
    match bracket_of_first(alloc, commodities, fixed, first, second) {
        Ok(bracket) => {
            is_bracket(&bracket, lengths, low, 4_000_000) & bracket.rows.as_slice().is_empty()
        }
        Err(_) => false,
    }
}

fn first_has_bracket(
    alloc: Global,
    commodities: &Commodities,
    first: u64,
    second: u64,
    lengths: &[u64],
    low: u128,
) -> bool
    requires net { commodities.now.net ≡ parallel_links }
    requires matrix { commodities.now.matrix.demand ≡ 40 ∷ [] }
    requires first { first ≤ 2 ^ 28 }
    requires second { second ≤ 2 ^ 28 }
{
    match first_alone(alloc) {
        Ok(fixed) => has_bracket(alloc, commodities, &fixed, first, second, lengths, low),
        Err(_) => false,
    }
}

/// Whether the demand on the first link alone has this bracket, where these lengths are offered.
fn is_bracket_of_first(alloc: Global, first: u64, second: u64, lengths: &[u64], low: u128) -> bool
    requires first { first ≤ 2 ^ 28 }
    requires second { second ≤ 2 ^ 28 }
{
    match on_parallel_links(alloc) {
        Ok(commodities) => first_has_bracket(alloc, &commodities, first, second, lengths, low),
        Err(_) => false,
    }
}

#[test]
fn the_first_link_alone_carries_four_times_its_capacity(rt: HostRuntime) {
    let alloc = rt.alloc();
    // The offered lengths, those of the bracket, and its bound from below.
    assert!(rt; is_bracket_of_first(alloc, 1, 0, &[1, 0], 4_000_000));
    assert!(rt; is_bracket_of_first(alloc, 5, 1, &[5, 1], 2_500_000));
    assert!(rt; is_bracket_of_first(alloc, 1, 3, &[1, 1], 1_000_000));
    assert!(rt; is_bracket_of_first(alloc, 1, 1, &[1, 1], 1_000_000));
}
