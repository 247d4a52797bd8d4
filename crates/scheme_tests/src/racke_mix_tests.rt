//! The mix of trees, on two nodes with one link each way.
ghost use Rattle.std.specs.Prelude.{◌≡◌, ◌∷◌, []};
ghost use Rattle.sample_networks.specs.Literals.{pair_of};
ghost use Rattle.sample_networks.specs.Networks.{two_nodes};

use crate::commodities::{Commodities, plan_and_route, there_and_back};
use racke_mix::*;
use routing::Routing;
use sample_networks::are_routes;
use scheme::Oblivious;
use std::alloc::Global;

/// Whether each pair has its own link alone.
fn has_single_links(routing: &Routing) -> bool {
    are_routes(
        routing.routes.as_slice(),
        &[(0, 1, &[(&[0], 1_000_000)]), (1, 0, &[(&[1], 1_000_000)])],
    )
}

/// Whether there are two rounds, the first with even lengths.
fn are_two_from_even(rounds: &[Round]) -> bool {
    match rounds {
        [first, _second] => first.lengths.as_slice() == [1024, 1024].as_slice(),
        _ => false,
    }
}

/// Whether the plan has two rounds, and each pair its own link alone, for every matrix and for one.
fn has_own_links(racke: &Racke, plan: &RackePlan, routing: &Routing) -> bool {
    let rounds = are_two_from_even(plan.rounds.as_slice());
    rounds & has_single_links(racke.fixed(plan)) & has_single_links(routing)
}

/// Whether the mix of two trees takes the only link of each pair.
fn mix_has_own_links(alloc: Global, commodities: &Commodities) -> bool
    requires net { commodities.now.net ≡ two_nodes }
    requires pairs { commodities.now.pairs.list ≡ pair_of (0, 1) ∷ pair_of (1, 0) ∷ [] }
    requires matrix { commodities.now.matrix.demand ≡ 1 ∷ 2 ∷ [] }
{
    let racke = Racke { trees: 2, seed: 0 };
    match plan_and_route(alloc, &racke, commodities) {
        Ok((plan, routing, _note)) => has_own_links(&racke, &plan, &routing),
        Err(_) => false,
    }
}

fn mix_there_and_back_has_own_links(alloc: Global) -> bool {
    match there_and_back(alloc) {
        Ok(commodities) => mix_has_own_links(alloc, &commodities),
        Err(_) => false,
    }
}

#[test]
fn each_pair_has_its_own_link(rt: HostRuntime) {
    assert!(rt; mix_there_and_back_has_own_links(rt.alloc()));
}
