//! Lengths that grow with the load, on two parallel links.
ghost use Rattle.std.specs.Prelude.{◌≡◌};
ghost use Rattle.multiplicative_lengths.specs.Growth.{first_multipliers};
ghost use Rattle.sample_networks.specs.Networks.{parallel_links};

use multiplicative_lengths::*;
use sample_networks::parallel_links;
use std::alloc::Global;
use te_model::{Memory, Network};

/// Whether the multipliers are 1024, and the lengths by them are as the capacities want it.
fn are_first(alloc: Global, net: &Network, multipliers: &[u64]) -> bool
    requires net { net.now ≡ parallel_links }
    requires multipliers { multipliers.now ≡ first_multipliers net.now }
{
    match lengths_of(alloc, net, multipliers) {
        Ok(lengths) => {
            let of_links = lengths.as_slice() == [3072, 1024].as_slice();
            of_links & (multipliers == [1024, 1024].as_slice())
        }
        Err(_) => false,
    }
}

/// The multipliers after a load on the second link alone.
fn grown(alloc: Global, net: &Network, multipliers: &[u64]) -> Result<Vec<u64>, Memory>
    requires net { net.now ≡ parallel_links }
    requires multipliers { multipliers.now ≡ first_multipliers net.now }
{
    let mut loads = [0, 0];
    add_along(&mut loads, &[1], 40);
    let most = greatest_usage(net, &loads);
    grow(alloc, net, &loads, 4 * most, multipliers)
}

/// Whether the multiplier of the second link alone grows by a quarter.
fn grow_by_a_quarter(alloc: Global, net: &Network, multipliers: &[u64]) -> bool
    requires net { net.now ≡ parallel_links }
    requires multipliers { multipliers.now ≡ first_multipliers net.now }
{
    match grown(alloc, net, multipliers) {
        Ok(next) => next.as_slice() == [1024, 1280].as_slice(),
        Err(_) => false,
    }
}

/// Whether the first multipliers are 1024, and that of a link with load grows by a quarter.
fn multipliers_grow(alloc: Global, net: &Network) -> bool
    requires { net.now ≡ parallel_links }
{
    match first_multipliers(alloc, net) {
        Ok(multipliers) => {
            let first = are_first(alloc, net, &multipliers);
            first & grow_by_a_quarter(alloc, net, &multipliers)
        }
        Err(_) => false,
    }
}

fn multipliers_of_links_grow(alloc: Global) -> bool {
    match parallel_links(alloc) {
        Ok(net) => multipliers_grow(alloc, &net),
        Err(_) => false,
    }
}

#[test]
fn a_link_with_load_grows_by_a_quarter(rt: HostRuntime) {
    assert!(rt; multipliers_of_links_grow(rt.alloc()));
}
