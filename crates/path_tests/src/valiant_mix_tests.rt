//! Even parts by way of every node.
ghost use Rattle.std.specs.Prelude.{[], ◌≡◌, ◌∷◌, IsTrue, map};
ghost use Rattle.te_model.specs.Network.{is_well_formed};
ghost use Rattle.scheme.specs.Reach.{ArePairsOf};
ghost use Rattle.sample_networks.specs.Literals.{pair_of};
ghost use Rattle.sample_networks.specs.Networks.{four_nodes};

use sample_networks::{WeightedPath, are_routes, four_nodes, network, pairs};
use scheme::{Oblivious, Scheme, SchemeFault};
use std::alloc::Global;
use te_model::Network;
use valiant_mix::*;

/// The plan for these pairs.
fn plan(alloc: Global, net: &Network, ends: &[(u32, u32)]) -> Result<ValiantPlan, SchemeFault>
    requires network { IsTrue (is_well_formed net.now) }
    requires pairs { ArePairsOf net.now (map pair_of ends.now) }
{
    let pairs = pairs(alloc, ends)?;
    Valiant.prepare(alloc, net, &pairs)
}

/// Whether the plan for the first node and the second one has these paths.
fn has_paths(alloc: Global, net: &Network, paths: &[WeightedPath]) -> bool
    requires network { IsTrue (is_well_formed net.now) }
    requires pairs { ArePairsOf net.now (pair_of (0, 1) ∷ []) }
{
    match plan(alloc, net, &[(0, 1)]) {
        Ok(plan) => are_routes(Valiant.fixed(&plan).routes.as_slice(), &[(0, 1, paths)]),
        Err(_) => false,
    }
}

/// Whether s sends to t and to x by way of each node from which these are reached.
fn sends_over_each_node(alloc: Global, net: &Network) -> bool
    requires { net.now ≡ four_nodes }
{
    let to_t: &[WeightedPath] = &[(&[0], 500_000), (&[1, 2], 250_000), (&[3, 4, 2], 250_000)];
    let to_x: &[WeightedPath] = &[(&[1], 666_667), (&[3, 4], 333_333)];
    match plan(alloc, net, &[(0, 1), (0, 2)]) {
        Ok(plan) => are_routes(
            Valiant.fixed(&plan).routes.as_slice(),
            &[(0, 1, to_t), (0, 2, to_x)],
        ),
        Err(_) => false,
    }
}

fn nodes_that_lead_nowhere_are_left_out(alloc: Global) -> bool {
    match four_nodes(alloc) {
        Ok(net) => sends_over_each_node(alloc, &net),
        Err(_) => false,
    }
}

fn first_nodes_have_the_units_left_over(alloc: Global) -> bool {
    let ends = [
        (0, 1, 10, 1),
        (0, 2, 10, 1),
        (1, 0, 10, 1),
        (1, 2, 10, 1),
        (2, 0, 10, 1),
        (2, 1, 10, 1),
    ];
    match network(alloc, &["a", "b", "c"], &ends) {
        Ok(net) => has_paths(alloc, &net, &[(&[0], 666_667), (&[1, 5], 333_333)]),
        Err(_) => false,
    }
}

fn way_out_and_back_is_cut(alloc: Global) -> bool {
    let ends = [(0, 1, 10, 1), (1, 0, 10, 1), (1, 2, 10, 1), (2, 1, 10, 1)];
    match network(alloc, &["a", "b", "c"], &ends) {
        Ok(chain) => has_paths(alloc, &chain, &[(&[0], 1_000_000)]),
        Err(_) => false,
    }
}

/// Whether the second of two pairs, which has no path, is named.
fn is_second_pair_named(alloc: Global, net: &Network) -> bool
    requires { net.now ≡ four_nodes }
{
    match plan(alloc, net, &[(0, 1), (1, 0)]) {
        Err(SchemeFault::NoPath(place)) => place == 1,
        _ => false,
    }
}

fn first_pair_without_path_is_named(alloc: Global) -> bool {
    match four_nodes(alloc) {
        Ok(net) => is_second_pair_named(alloc, &net),
        Err(_) => false,
    }
}

#[test]
fn demands_go_by_way_of_every_node(rt: HostRuntime) {
    assert!(rt; nodes_that_lead_nowhere_are_left_out(rt.alloc()));
    assert!(rt; first_nodes_have_the_units_left_over(rt.alloc()));
    assert!(rt; way_out_and_back_is_cut(rt.alloc()));
    assert!(rt; first_pair_without_path_is_named(rt.alloc()));
}
