//! Moves of weight from one path to another, on two parallel links.
ghost use Rattle.std.specs.Prelude.{◌≡◌, ◌∷◌, [], IfOk};
ghost use Rattle.routing.specs.Routes.{IsRoutingOf};
ghost use Rattle.sample_networks.specs.Literals.{pair_of};
ghost use Rattle.sample_networks.specs.Networks.{parallel_links};

use crate::commodities::{Commodities, on_parallel_links};
use local_search::*;
use routing::Routing;
use sample_networks::{are_routes, weighted_routes};
use std::alloc::{AllocError, Global};
use te_model::Memory;

/// All of the demand on the narrow link.
fn narrow_alone(alloc: Global) -> Result<Routing, AllocError>
    ensures { IfOk result (λ r. IsRoutingOf parallel_links (pair_of (0, 1) ∷ []) r.routes) }
{
    let routes = weighted_routes(alloc, &[(0, 1, &[(&[0], 1_000_000)])])?;
    Ok(Routing { routes })
}

/// The split that no move improves.
fn balance(alloc: Global) -> Result<Routing, AllocError>
    ensures { IfOk result (λ r. IsRoutingOf parallel_links (pair_of (0, 1) ∷ []) r.routes) }
{
    let routes = weighted_routes(alloc, &[(0, 1, &[(&[0], 250_000), (&[1], 750_000)])])?;
    Ok(Routing { routes })
}

/// Where moves begin.
#[derive(Clone, Copy)]
enum Start {
    NarrowAlone,
    Balance,
}

/// The routing at which moves begin.
fn routing_at(alloc: Global, start: Start) -> Result<Routing, AllocError>
    ensures { IfOk result (λ r. IsRoutingOf parallel_links (pair_of (0, 1) ∷ []) r.routes) }
{
    match start {
        Start::NarrowAlone => narrow_alone(alloc),
        Start::Balance => balance(alloc),
    }
}

/// The routing after moves, both links being candidates.
fn settled(
    alloc: Global,
    commodities: &Commodities,
    routing: Routing,
    candidates: &Routing,
) -> Result<Routing, Memory>
    requires net { commodities.now.net ≡ parallel_links }
    requires matrix { commodities.now.matrix.demand ≡ 40 ∷ [] }
    requires routing { IsRoutingOf parallel_links (pair_of (0, 1) ∷ []) routing.routes }
    requires candidates { IsRoutingOf parallel_links (pair_of (0, 1) ∷ []) candidates.now.routes }
    ensures { IfOk result (λ r. IsRoutingOf parallel_links (pair_of (0, 1) ∷ []) r.routes) }
{
    local_optimum(
        alloc,
        &commodities.net,
        &commodities.matrix,
        routing,
        candidates,
    )
}

/// The greatest utilisation of a link.
fn parts(commodities: &Commodities, routing: &Routing) -> u128
    requires net { commodities.now.net ≡ parallel_links }
    requires matrix { commodities.now.matrix.demand ≡ 40 ∷ [] }
    requires routing { IsRoutingOf parallel_links (pair_of (0, 1) ∷ []) routing.now.routes }
{
    routing.parts(&commodities.net, &commodities.matrix)
}

/// The routing after moves from this start.
fn settled_from(
    alloc: Global,
    commodities: &Commodities,
    start: Start,
    candidates: &Routing,
) -> Result<Routing, Memory>
    requires net { commodities.now.net ≡ parallel_links }
    requires matrix { commodities.now.matrix.demand ≡ 40 ∷ [] }
    requires candidates { IsRoutingOf parallel_links (pair_of (0, 1) ∷ []) candidates.now.routes }
    ensures { IfOk result (λ r. IsRoutingOf parallel_links (pair_of (0, 1) ∷ []) r.routes) }
{
    let routing = routing_at(alloc, start)?;
    settled(alloc, commodities, routing, candidates)
}

/// Whether the routing is the balance, with links as full as they are at best.
fn is_balance(commodities: &Commodities, routing: &Routing) -> bool
    requires net { commodities.now.net ≡ parallel_links }
    requires matrix { commodities.now.matrix.demand ≡ 40 ∷ [] }
    requires routing { IsRoutingOf parallel_links (pair_of (0, 1) ∷ []) routing.now.routes }
{
    let routes = are_routes(
        routing.routes.as_slice(),
        &[(0, 1, &[(&[0], 250_000), (&[1], 750_000)])],
    );
    routes & (parts(commodities, routing) == 1_000_000)
}

/// Whether the moves end at this routing: where no move helps, from the narrow link, and at once, from the balance.
fn is_end(commodities: &Commodities, start: Start, routing: &Routing) -> bool
    requires net { commodities.now.net ≡ parallel_links }
    requires matrix { commodities.now.matrix.demand ≡ 40 ∷ [] }
    requires routing { IsRoutingOf parallel_links (pair_of (0, 1) ∷ []) routing.now.routes }
{
    match start {
        // No stable split of this demand has more.
        Start::NarrowAlone => parts(commodities, routing) <= 1_010_740,
        Start::Balance => is_balance(commodities, routing),
    }
}

/// Whether the moves from this start end where they have to.
fn ends_well(alloc: Global, commodities: &Commodities, start: Start, candidates: &Routing) -> bool
    requires net { commodities.now.net ≡ parallel_links }
    requires matrix { commodities.now.matrix.demand ≡ 40 ∷ [] }
    requires candidates { IsRoutingOf parallel_links (pair_of (0, 1) ∷ []) candidates.now.routes }
{
    match settled_from(alloc, commodities, start, candidates) {
        Ok(routing) => is_end(commodities, start, &routing),
        Err(_) => false,
    }
}

/// The same with both links as candidates.
fn ends_well_on_both(alloc: Global, commodities: &Commodities, start: Start) -> bool
    requires net { commodities.now.net ≡ parallel_links }
    requires matrix { commodities.now.matrix.demand ≡ 40 ∷ [] }
{
    match balance(alloc) {
        Ok(candidates) => ends_well(alloc, commodities, start, &candidates),
        Err(_) => false,
    }
}

/// The same on two parallel links.
fn ends_well_on_parallel_links(alloc: Global, start: Start) -> bool {
    match on_parallel_links(alloc) {
        Ok(commodities) => ends_well_on_both(alloc, &commodities, start),
        Err(_) => false,
    }
}

#[test]
fn moves_end_where_none_helps(rt: HostRuntime) {
    assert!(rt; ends_well_on_parallel_links(rt.alloc(), Start::NarrowAlone));
    assert!(rt; ends_well_on_parallel_links(rt.alloc(), Start::Balance));
}
