//! Even splits over least paths, and the paths that they come apart into.
ghost use Rattle.std.specs.Prelude.{◌≡◌, IsTrue, length, map, slice_index};
ghost use Rattle.te_model.specs.declared.units.TheConstants.{SHARE_UNIT};
ghost use Rattle.te_model.specs.Network.{is_well_formed, link_count, node_count};
ghost use Rattle.routing.specs.Decomposition.{IsAcyclicFlow};
ghost use Rattle.scheme.specs.Reach.{ArePairsOf, IsPairOf};
ghost use Rattle.sample_networks.specs.Literals.{pair_of};
ghost use Rattle.sample_networks.specs.Networks.{three_ways};

use crate::thirds::THIRDS;
use ecmp_split::*;
use routing::decompose;
use sample_networks::{are_paths, are_routes, network, pairs, three_ways};
use scheme::{Oblivious, Scheme, SchemeFault};
use std::alloc::Global;
use te_model::{Network, Pair};

/// Whether the flow of the pair has these parts.
fn has_flow(alloc: Global, net: &Network, pair: Pair, parts: &[u64]) -> bool
    requires network { IsTrue (is_well_formed net.now) }
    requires pair { IsPairOf net.now pair }
{
    match split(alloc, net, pair) {
        Ok(Some(flow)) => flow.as_slice() == parts,
        _ => false,
    }
}

/// Whether the flow of the pair comes apart into three paths with a third each.
fn comes_apart(alloc: Global, net: &Network, pair: Pair, flow: &[u64]) -> bool
    requires network { IsTrue (is_well_formed net.now) }
    requires pair { IsPairOf net.now pair }
    requires count { length flow.now ≡ link_count net.now }
    requires flow { IsAcyclicFlow net.now (slice_index flow.now) SHARE_UNIT pair.src pair.dst }
{
    match decompose(alloc, net, pair, flow) {
        Ok(paths) => are_paths(&paths, THIRDS),
        Err(_) => false,
    }
}

/// Whether the split of the pair comes apart into three paths with a third each.
fn has_thirds(alloc: Global, net: &Network, pair: Pair) -> bool
    requires network { IsTrue (is_well_formed net.now) }
    requires pair { IsPairOf net.now pair }
{
    match split(alloc, net, pair) {
        Ok(Some(flow)) => comes_apart(alloc, net, pair, &flow),
        _ => false,
    }
}

/// Whether the three equal paths from s to t carry even parts.
fn has_even_parts(alloc: Global, net: &Network) -> bool
    requires { net.now ≡ three_ways 1 }
{
    let pair = Pair { src: 0, dst: 4 };
    let thirds = [333_334, 333_333, 333_333, 333_334, 333_333, 333_333];
    has_flow(alloc, net, pair, &thirds) & has_thirds(alloc, net, pair)
}

fn equal_paths_carry_even_parts(alloc: Global) -> bool {
    match three_ways(alloc, 1) {
        Ok(net) => has_even_parts(alloc, &net),
        Err(_) => false,
    }
}

/// Whether there is no flow from t back to s.
fn has_no_flow_back(alloc: Global, net: &Network) -> bool
    requires { net.now ≡ three_ways 1 }
{
    match split(alloc, net, Pair { src: 4, dst: 0 }) {
        Ok(flow) => flow.is_none(),
        Err(_) => false,
    }
}

fn no_flow_leads_back(alloc: Global) -> bool {
    match three_ways(alloc, 1) {
        Ok(net) => has_no_flow_back(alloc, &net),
        Err(_) => false,
    }
}

/// Whether the flow from s to t is split evenly at s, and again at x.
fn is_split_twice(alloc: Global, net: &Network) -> bool
    requires network { IsTrue (is_well_formed net.now) }
    requires nodes { node_count net.now ≡ 4 }
{
    let parts = [333_334, 333_333, 333_333, 333_333, 500_000, 500_000, 0];
    has_flow(alloc, net, Pair { src: 0, dst: 3 }, &parts)
}

fn flow_is_split_again_where_its_parts_meet(alloc: Global) -> bool {
    // Two links from s to x, one from s to y, one from y to x, and three from x to t, of which the last costs more.
    let ends = [
        (0, 1, 10, 2),
        (0, 1, 10, 2),
        (0, 2, 10, 1),
        (2, 1, 10, 1),
        (1, 3, 10, 1),
        (1, 3, 10, 1),
        (1, 3, 10, 2),
    ];
    match network(alloc, &["s", "x", "y", "t"], &ends) {
        Ok(stages) => is_split_twice(alloc, &stages),
        Err(_) => false,
    }
}

#[test]
fn flows_are_split_evenly(rt: HostRuntime) {
    assert!(rt; equal_paths_carry_even_parts(rt.alloc()));
    assert!(rt; no_flow_leads_back(rt.alloc()));
    assert!(rt; flow_is_split_again_where_its_parts_meet(rt.alloc()));
}

/// The plan for these pairs.
fn plan(alloc: Global, net: &Network, ends: &[(u32, u32)]) -> Result<EcmpPlan, SchemeFault>
    requires net { net.now ≡ three_ways 1 }
    requires pairs { ArePairsOf net.now (map pair_of ends.now) }
{
    let pairs = pairs(alloc, ends)?;
    Ecmp.prepare(alloc, net, &pairs)
}

/// The plan for these pairs of the three ways.
fn prepared(alloc: Global, ends: &[(u32, u32)]) -> Result<EcmpPlan, SchemeFault>
    requires { ArePairsOf (three_ways 1) (map pair_of ends.now) }
{
    let net = three_ways(alloc, 1)?;
    plan(alloc, &net, ends)
}

fn paths_carry_flow_of_equal_splits(alloc: Global) -> bool {
    match prepared(alloc, &[(0, 4)]) {
        Ok(plan) => are_routes(Ecmp.fixed(&plan).routes.as_slice(), &[(0, 4, THIRDS)]),
        Err(_) => false,
    }
}

/// Whether the second of two pairs, which has no path, is named.
fn is_first_pair_without_path_named(alloc: Global) -> bool {
    match prepared(alloc, &[(0, 4), (4, 0)]) {
        Err(SchemeFault::NoPath(place)) => place == 1,
        _ => false,
    }
}

#[test]
fn plans_are_of_equal_splits(rt: HostRuntime) {
    assert!(rt; paths_carry_flow_of_equal_splits(rt.alloc()));
    assert!(rt; is_first_pair_without_path_named(rt.alloc()));
}
