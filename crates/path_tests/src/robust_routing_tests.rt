//! One routing for all matrices, found by sweeps.
ghost use Rattle.std.specs.Prelude.{[], ◌≡◌, ◌∷◌, IsTrue, map};
ghost use Rattle.te_model.specs.Network.{is_well_formed};
ghost use Rattle.scheme.specs.Reach.{ArePairsOf};
ghost use Rattle.sample_networks.specs.Literals.{pair_of};
ghost use Rattle.sample_networks.specs.Networks.{four_nodes, parallel_links};

use robust_routing::*;
use sample_networks::{four_nodes, pairs, parallel_links};
use scheme::{Oblivious, Scheme, SchemeFault};
use std::alloc::Global;
use te_model::{Network, PairRoutes};

/// The plan for these pairs.
fn plan(
    alloc: Global,
    net: &Network,
    ends: &[(u32, u32)],
    ways: u32,
) -> Result<RobustPlan, SchemeFault>
    requires network { IsTrue (is_well_formed net.now) }
    requires pairs { ArePairsOf net.now (map pair_of ends.now) }
{
    let pairs = pairs(alloc, ends)?;
    Robust { ways }.prepare(alloc, net, &pairs)
}

/// How many paths the first pair has.
fn paths_of_first(routes: &[PairRoutes]) -> usize {
    match routes.first() {
        Some(route) => route.paths.as_slice().len(),
        None => 0,
    }
}

/// How many paths the pair has over two parallel links, where it may have so many.
fn parallel_paths(alloc: Global, net: &Network, ways: u32) -> usize
    requires { net.now ≡ parallel_links }
{
    match plan(alloc, net, &[(0, 1)], ways) {
        Ok(plan) => paths_of_first(Robust { ways }.fixed(&plan).routes.as_slice()),
        Err(_) => 0,
    }
}

fn parallel_links_are_both_used(alloc: Global) -> bool {
    match parallel_links(alloc) {
        Ok(net) => parallel_paths(alloc, &net, 32) == 2,
        Err(_) => false,
    }
}

fn limit_of_one_path_is_kept(alloc: Global) -> bool {
    match parallel_links(alloc) {
        Ok(net) => parallel_paths(alloc, &net, 1) == 1,
        Err(_) => false,
    }
}

/// Whether the second of two pairs, which has no path, is named.
fn is_second_pair_named(alloc: Global, net: &Network) -> bool
    requires { net.now ≡ four_nodes }
{
    match plan(alloc, net, &[(0, 1), (1, 0)], 32) {
        Err(SchemeFault::NoPath(place)) => place == 1,
        _ => false,
    }
}

fn first_pair_without_path_is_named(alloc: Global) -> bool {
    match four_nodes(alloc) {
        Ok(net) => is_second_pair_named(alloc, &net),
        Err(_) => false,
    }
}

#[test]
fn one_routing_is_found_by_sweeps(rt: HostRuntime) {
    assert!(rt; parallel_links_are_both_used(rt.alloc()));
    assert!(rt; limit_of_one_path_is_kept(rt.alloc()));
    assert!(rt; first_pair_without_path_is_named(rt.alloc()));
}
