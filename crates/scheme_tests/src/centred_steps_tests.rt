//! A step of the weights from the mean of the usages, and loads along the least ways.
ghost use Rattle.std.specs.Prelude.{◌≡◌, ◌^◌, ◌≤◌};
ghost use Rattle.te_model.specs.ThreeNodes.{three_nodes};
ghost use Rattle.sample_networks.specs.Networks.{parallel_links};

use centred_steps::*;
use sample_networks::{parallel_links, three_nodes};
use std::alloc::Global;
use te_model::Network;

/// Whether equal weights are these after a step in which the first link has a load of 40.
fn step_gives(net: &Network, weight: u64, parts: u64, expected: &[u64]) -> bool
    requires net { net.now ≡ parallel_links }
    requires weight { (1 ≤ weight) × (weight ≤ 2 ^ 27) }
    requires parts { (1 ≤ parts) × (parts ≤ 128) }
{
    let mut weights = [weight, weight];
    step_weights(net, &mut weights, &[40, 0], parts);
    weights.as_slice() == expected
}

/// Whether such a step gives these weights on the parallel links of the capacities 10 and 30.
fn are_after_step(alloc: Global, weight: u64, parts: u64, expected: &[u64]) -> bool
    requires weight { (1 ≤ weight) × (weight ≤ 2 ^ 27) }
    requires parts { (1 ≤ parts) × (parts ≤ 128) }
{
    match parallel_links(alloc) {
        Ok(net) => step_gives(&net, weight, parts, expected),
        Err(_) => false,
    }
}

#[test]
fn weights_move_from_the_mean(rt: HostRuntime) {
    let alloc = rt.alloc();
    // The usages are 4 and 0, and their mean is 1. So the first weight doubles, and the second loses a third. Then both double.
    assert!(rt; are_after_step(alloc, 1_048_576, 1, &[4_194_304, 1_398_102]));
    // In one of two parts, the first weight gains its half, and the second loses a sixth.
    assert!(rt; are_after_step(alloc, 1_048_576, 2, &[3_145_728, 1_747_628]));
    // The weights stay within their limits.
    assert!(rt; are_after_step(alloc, 1, 1, &[4, 2]));
    assert!(rt; are_after_step(alloc, 134_217_728, 1, &[134_217_728, 44_739_243]));
}

/// Whether the load of the third node lies on its least way, over the second node.
fn has_load_on_least_way(net: &Network) -> bool
    requires { net.now ≡ three_nodes }
{
    let mut lasts = [None, None, None];
    let distances = [Some(0), Some(1), Some(2)];
    last_links(net, &[4, 1, 1, 1], &distances, &mut lasts);
    let way = (lasts == [None, Some(2), Some(1)]) & (narrowest_on(net, &lasts, 2) == 10);
    let mut loads = [0, 0, 0, 0];
    add_load_along(net, &lasts, 2, 5, &mut loads);
    let on_way = (loads == [0, 5, 5, 0]) & has_load(&loads);
    clear_loads(&mut loads);
    way & on_way & !has_load(&loads)
}

fn load_lies_on_least_way(alloc: Global) -> bool {
    match three_nodes(alloc) {
        Ok(net) => has_load_on_least_way(&net),
        Err(_) => false,
    }
}

#[test]
fn loads_lie_on_the_least_way(rt: HostRuntime) {
    assert!(rt; load_lies_on_least_way(rt.alloc()));
}
