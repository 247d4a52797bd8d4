//! The least paths of a pair in order, and even weights on them.
ghost use Rattle.std.specs.Prelude.{◌≡◌, ◌≢◌, ◌<◌, ◌≤◌, IsTrue};
ghost use Rattle.te_model.specs.Network.{is_well_formed, node_count};
ghost use Rattle.sample_networks.specs.Networks.{three_ways};

use crate::thirds::THIRDS;
use k_paths::*;
use sample_networks::{are_routes, network, pairs, three_ways};
use scheme::{Oblivious, Scheme, SchemeFault};
use std::alloc::Global;
use te_model::{Network, Path};

/// Whether the paths have these links.
fn have_links(paths: &[Path], expected: &[&[u32]]) -> bool {
    if paths.len() != expected.len() {
        return false;
    }
    for place in 0..paths.len() {
        if paths[place].links.as_slice() != expected[place] {
            return false;
        }
    }
    true
}

/// Whether the first `k` paths have these links.
fn are_first(alloc: Global, net: &Network, src: u32, dst: u32, k: u32, expected: &[&[u32]]) -> bool
    requires network { IsTrue (is_well_formed net.now) }
    requires src { src < node_count net.now }
    requires dst { dst < node_count net.now }
    requires apart { src ≢ dst }
    requires some { 1 ≤ k }
    requires few { k ≤ 32 }
{
    match k_least(alloc, net, src, dst, k) {
        Ok(paths) => have_links(&paths, expected),
        Err(_) => false,
    }
}

/// Whether the first `k` paths of the three ways, of which the last link has this cost, have these links.
fn are_first_ways(alloc: Global, last: u32, src: u32, dst: u32, k: u32, expected: &[&[u32]]) -> bool
    requires network { IsTrue (is_well_formed (three_ways last)) }
    requires src { src < node_count (three_ways last) }
    requires dst { dst < node_count (three_ways last) }
    requires apart { src ≢ dst }
    requires some { 1 ≤ k }
    requires few { k ≤ 32 }
{
    match three_ways(alloc, last) {
        Ok(net) => are_first(alloc, &net, src, dst, k, expected),
        Err(_) => false,
    }
}

#[test]
fn paths_come_in_order_of_cost_and_links(rt: HostRuntime) {
    let alloc = rt.alloc();
    assert!(rt; are_first_ways(alloc, 1, 0, 4, 5, &[&[0, 3], &[1, 4], &[2, 5]]));
    assert!(rt; are_first_ways(alloc, 2, 0, 4, 5, &[&[0, 3], &[1, 4], &[2, 5]]));
    assert!(rt; are_first_ways(alloc, 2, 0, 4, 2, &[&[0, 3], &[1, 4]]));
    assert!(rt; are_first_ways(alloc, 2, 4, 0, 2, &[]));
}

/// Whether the paths from s to t come in order, of which the second leads over y before x, and the last over x before y.
fn are_over_both(alloc: Global, net: &Network) -> bool
    requires network { IsTrue (is_well_formed net.now) }
    requires nodes { node_count net.now ≡ 4 }
{
    are_first(
        alloc,
        net,
        0,
        3,
        5,
        &[&[0, 1], &[2, 3, 1], &[2, 4], &[0, 5, 4]],
    )
}

fn least_way_may_lead_over_first_nodes(alloc: Global) -> bool {
    // The least way from y to t leads over x, and there is a link from x to y.
    let ends = [
        (0, 1, 10, 1),
        (1, 3, 10, 1),
        (0, 2, 10, 1),
        (2, 1, 10, 1),
        (2, 3, 10, 5),
        (1, 2, 10, 1),
    ];
    match network(alloc, &["s", "x", "y", "t"], &ends) {
        Ok(net) => are_over_both(alloc, &net),
        Err(_) => false,
    }
}

/// The plan of the five least paths for the only pair.
fn prepared(alloc: Global, net: &Network) -> Result<KspPlan, SchemeFault>
    requires { net.now ≡ three_ways 2 }
{
    let pairs = pairs(alloc, &[(0, 4)])?;
    Ksp { k: 5 }.prepare(alloc, net, &pairs)
}

/// Whether each of the three paths has a third.
fn has_even_weights(plan: &KspPlan) -> bool {
    let fixed = Ksp { k: 5 }.fixed(plan);
    are_routes(fixed.routes.as_slice(), &[(0, 4, THIRDS)])
}

fn plan_has_even_weights(alloc: Global, net: &Network) -> bool
    requires { net.now ≡ three_ways 2 }
{
    match prepared(alloc, net) {
        Ok(plan) => has_even_weights(&plan),
        Err(_) => false,
    }
}

fn paths_have_even_weights(alloc: Global) -> bool {
    match three_ways(alloc, 2) {
        Ok(net) => plan_has_even_weights(alloc, &net),
        Err(_) => false,
    }
}

#[test]
fn first_paths_have_even_weights(rt: HostRuntime) {
    assert!(rt; least_way_may_lead_over_first_nodes(rt.alloc()));
    assert!(rt; paths_have_even_weights(rt.alloc()));
}
