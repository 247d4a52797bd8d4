//! Rounds of least paths by lengths that grow with the load, on two parallel links.
ghost use Rattle.std.specs.Prelude.{◌≡◌, ◌<◌, ◌∷◌, [], IfOk, length};
ghost use Rattle.routing.specs.Routes.{AreDemands};
ghost use Rattle.scheme.specs.Low.{HasLow};
ghost use Rattle.mcf_lengths.specs.Rounds.{AreFlowRounds, IsRoundsRouting};
ghost use Rattle.sample_networks.specs.Literals.{pair_of};
ghost use Rattle.sample_networks.specs.Networks.{parallel_links};

use crate::brackets::is_between;
use crate::commodities::{Commodities, on_parallel_links, plan_and_route};
use mcf_lengths::*;
use routing::Routing;
use sample_networks::are_routes;
use std::alloc::Global;
use te_model::{Bracket, Items, Memory};

/// The rounds of the demand.
fn sample_rounds(alloc: Global, commodities: &Commodities) -> Result<Vec<FlowRound>, Memory>
    requires net { commodities.now.net ≡ parallel_links }
    requires pairs { commodities.now.pairs.list ≡ pair_of (0, 1) ∷ [] }
    requires matrix { commodities.now.matrix.demand ≡ 40 ∷ [] }
    ensures { IfOk result (λ r. AreFlowRounds parallel_links (pair_of (0, 1) ∷ []) (40 ∷ []) r.items) }
{
    make_rounds(
        alloc,
        &commodities.net,
        &commodities.pairs,
        &commodities.matrix,
    )
}

/// Whether the first pair takes the link alone in the round.
fn takes(round: &FlowRound, link: u32) -> bool {
    match round.paths.as_slice() {
        [path] => path.links.as_slice() == [link].as_slice(),
        _ => false,
    }
}

/// Whether the first pair takes these links alone, one in each round.
fn take_links(rounds: &[FlowRound], links: &[u32]) -> bool {
    if rounds.len() != links.len() {
        return false;
    }
    for place in 0..rounds.len() {
        if !takes(&rounds[place], links[place]) {
            return false;
        }
    }
    true
}

// The link of each round: the small one, 0, in the rounds 5, 9, 13, 17, 20 and 24.
const LINKS: &[u32] = &[
    1, 1, 1, 1, 1, 0, 1, 1, 1, 0, 1, 1, 1, 0, 1, 1, 1, 0, 1, 1, 0, 1, 1, 1, 0, 1, 1, 1,
];

/// Whether the pair takes the small link alone in six rounds, and the large one in the others.
fn rounds_take_links(alloc: Global, commodities: &Commodities) -> bool
    requires net { commodities.now.net ≡ parallel_links }
    requires pairs { commodities.now.pairs.list ≡ pair_of (0, 1) ∷ [] }
    requires matrix { commodities.now.matrix.demand ≡ 40 ∷ [] }
{
    match sample_rounds(alloc, commodities) {
        Ok(rounds) => take_links(&rounds, LINKS),
        Err(_) => false,
    }
}

/// The routing of the rounds, and the lengths of each.
fn sample_routing(
    alloc: Global,
    commodities: &Commodities,
) -> Result<(Routing, Vec<Items<u64>>), Memory>
    requires net { commodities.now.net ≡ parallel_links }
    requires pairs { commodities.now.pairs.list ≡ pair_of (0, 1) ∷ [] }
    requires matrix { commodities.now.matrix.demand ≡ 40 ∷ [] }
    ensures rounds { IfOk result (λ r. IsRoundsRouting parallel_links (pair_of (0, 1) ∷ []) (40 ∷ []) r.0.routes) }
    ensures count { IfOk result (λ r. length r.0.routes ≡ 1) }
{
    rounds_routing(
        alloc,
        &commodities.net,
        &commodities.pairs,
        &commodities.matrix,
    )
}

/// Whether the small link has 6 of 28 parts of the demand, and the large link the rest.
fn takes_most_on_large_link(commodities: &Commodities, routing: &Routing) -> bool
    requires net { commodities.now.net ≡ parallel_links }
    requires matrix { commodities.now.matrix.demand ≡ 40 ∷ [] }
    requires count { length routing.now.routes ≡ 1 }
{
    let parts = routing.parts(&commodities.net, &commodities.matrix) == 1_047_620;
    let routes = are_routes(
        routing.routes.as_slice(),
        &[(0, 1, &[(&[0], 214_285), (&[1], 785_715)])],
    );
    parts & routes
}

/// Whether the routing of 28 rounds has most of the demand on the large link.
fn rounds_take_large_link(alloc: Global, commodities: &Commodities) -> bool
    requires net { commodities.now.net ≡ parallel_links }
    requires pairs { commodities.now.pairs.list ≡ pair_of (0, 1) ∷ [] }
    requires matrix { commodities.now.matrix.demand ≡ 40 ∷ [] }
{
    match sample_routing(alloc, commodities) {
        Ok((routing, lengths)) => {
            (lengths.len() == 28) & takes_most_on_large_link(commodities, &routing)
        }
        Err(_) => false,
    }
}

/// Whether there is one pair, and no routing is better by more than three parts in 10,000.
fn fills_evenly(routing: &Routing, note: &Bracket) -> bool
    requires { HasLow note.now }
{
    let pairs = routing.routes.as_slice().len() == 1;
    pairs & is_between(note, 1_000_000, 1_000_300)
}

/// Whether the scheme fills both links evenly.
fn flow_fills_evenly(alloc: Global, commodities: &Commodities) -> bool
    requires net { commodities.now.net ≡ parallel_links }
    requires pairs { commodities.now.pairs.list ≡ pair_of (0, 1) ∷ [] }
    requires matrix { commodities.now.matrix.demand ≡ 40 ∷ [] }
{
    match plan_and_route(alloc, &Mcf, commodities) {
        Ok((_plan, routing, note)) => fills_evenly(&routing, &note),
        Err(_) => false,
    }
}

fn small_link_is_taken_in_six_rounds(alloc: Global) -> bool {
    match on_parallel_links(alloc) {
        Ok(commodities) => rounds_take_links(alloc, &commodities),
        Err(_) => false,
    }
}

fn most_rounds_take_large_link(alloc: Global) -> bool {
    match on_parallel_links(alloc) {
        Ok(commodities) => rounds_take_large_link(alloc, &commodities),
        Err(_) => false,
    }
}

fn parallel_links_are_filled_evenly(alloc: Global) -> bool {
    match on_parallel_links(alloc) {
        Ok(commodities) => flow_fills_evenly(alloc, &commodities),
        Err(_) => false,
    }
}

#[test]
fn lengths_grow_with_the_load(rt: HostRuntime) {
    assert!(rt; small_link_is_taken_in_six_rounds(rt.alloc()));
    assert!(rt; most_rounds_take_large_link(rt.alloc()));
    assert!(rt; parallel_links_are_filled_evenly(rt.alloc()));
}
