//! Rates for one matrix over fixed paths, on two parallel links.
ghost use Rattle.std.specs.Prelude.{◌≡◌, ◌∷◌, []};
ghost use Rattle.scheme.specs.Low.{HasLow};
ghost use Rattle.sample_networks.specs.Literals.{pair_of};
ghost use Rattle.sample_networks.specs.Networks.{parallel_links};

use crate::brackets::is_between;
use crate::commodities::{Commodities, on_parallel_links, plan_and_route};
use k_paths::Ksp;
use racke_mix::Racke;
use routing::Routing;
use sample_networks::are_routes;
use semi_oblivious::*;
use std::alloc::Global;
use te_model::Bracket;

/// How many paths the only pair has, or `None` where there is not one pair.
fn count_of_paths(routing: &Routing) -> Option<usize> {
    match routing.routes.as_slice() {
        [route] => Some(route.paths.as_slice().len()),
        _ => None,
    }
}

/// Whether the pair has two fixed paths, and fills both links evenly.
fn fills_both_links(fixed: &Routing, routing: &Routing, note: &Bracket) -> bool
    requires { HasLow note.now }
{
    let paths = count_of_paths(fixed) == Some(2);
    let pairs = routing.routes.as_slice().len() == 1;
    paths & pairs & is_between(note, 1_000_000, 1_000_300)
}

/// Whether the rates over the fixed paths of eight trees follow the matrix.
fn follow_matrix(alloc: Global, commodities: &Commodities) -> bool
    requires net { commodities.now.net ≡ parallel_links }
    requires pairs { commodities.now.pairs.list ≡ pair_of (0, 1) ∷ [] }
    requires matrix { commodities.now.matrix.demand ≡ 40 ∷ [] }
{
    let base = Racke { trees: 8, seed: 0 };
    let semi = Semi { base, budget: 4 };
    match plan_and_route(alloc, &semi, commodities) {
        Ok((plan, routing, note)) => fills_both_links(&plan.fixed, &routing, &note),
        Err(_) => false,
    }
}

fn rates_follow_matrix(alloc: Global) -> bool {
    match on_parallel_links(alloc) {
        Ok(commodities) => follow_matrix(alloc, &commodities),
        Err(_) => false,
    }
}

/// Whether the small link alone takes all of the demand.
fn fills_small_link(routing: &Routing, note: &Bracket) -> bool
    requires { HasLow note.now }
{
    let routes = are_routes(routing.routes.as_slice(), &[(0, 1, &[(&[0], 1_000_000)])]);
    routes & is_between(note, 4_000_000, 4_000_000)
}

/// Whether the only fixed path takes all of the demand.
fn stays_alone(alloc: Global, commodities: &Commodities) -> bool
    requires net { commodities.now.net ≡ parallel_links }
    requires pairs { commodities.now.pairs.list ≡ pair_of (0, 1) ∷ [] }
    requires matrix { commodities.now.matrix.demand ≡ 40 ∷ [] }
{
    let base = Ksp { k: 2 };
    let semi = Semi { base, budget: 1 };
    match plan_and_route(alloc, &semi, commodities) {
        Ok((_plan, routing, note)) => fills_small_link(&routing, &note),
        Err(_) => false,
    }
}

fn one_path_stays_alone(alloc: Global) -> bool {
    match on_parallel_links(alloc) {
        Ok(commodities) => stays_alone(alloc, &commodities),
        Err(_) => false,
    }
}

#[test]
fn rates_over_fixed_paths_follow_the_matrix(rt: HostRuntime) {
    assert!(rt; rates_follow_matrix(rt.alloc()));
    assert!(rt; one_path_stays_alone(rt.alloc()));
}
