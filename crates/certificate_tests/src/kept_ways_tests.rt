//! A way that is kept for a pair, its length, and what it puts on links.
ghost use Rattle.std.specs.Prelude.{◌≡◌};
ghost use Rattle.te_model.specs.ThreeNodes.{three_nodes};

use kept_ways::*;
use sample_networks::three_nodes;
use std::alloc::Global;
use te_model::{Memory, Network};

/// Whether the way of half a demand from the first node over the second to the third has this length, by which the demand is the
/// dearest, and two links of the load that its capacity gives.
fn is_kept(alloc: Global, net: &Network) -> Result<bool, Memory>
    requires { net.now ≡ three_nodes }
{
    let mut kept = KeptWays::new(alloc, 1);
    let lasts = [None, Some(2), Some(1)];
    kept.keep(alloc, net, &lasts, 2, 0, 500_000, 7)?;
    let first = kept.greatest_quotient();
    kept.measure(&[4, 1, 2, 1]);
    let scale = kept.greatest_quotient();
    let least = kept.least_lengths(alloc)?;
    let mut loads = [1, 1, 1, 1];
    kept.write_loads(scale, 2, &mut loads);
    Ok(
        (first.a == 500_000)
            & (first.b == 7)
            & (scale.b == 3)
            & (least.as_slice() == [3].as_slice())
            & (loads == [0, 10_240, 10_240, 0]),
    )
}

/// The same of the three nodes, and not where memory is wanting.
fn is_kept_on_three_nodes(alloc: Global) -> bool {
    match three_nodes(alloc) {
        Ok(net) => is_kept(alloc, &net).unwrap_or(false),
        Err(_) => false,
    }
}

#[test]
fn kept_ways_are_measured_and_send(rt: HostRuntime) {
    assert!(rt; is_kept_on_three_nodes(rt.alloc()));
}

#[test]
fn pairs_that_are_not_near_send_nothing(rt: HostRuntime) {
    assert!(rt; nearness(100, 100, 2) == 100);
    assert!(rt; nearness(100, 150, 2) == 50);
    assert!(rt; nearness(100, 200, 2) == 0);
    assert!(rt; nearness(100, 150, 4) == 0);
    assert!(rt; amount_of(10, 50, 100) == 5_120);
}
