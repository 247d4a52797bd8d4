//! The networks that more than one library is tested on.
ghost use Rattle.std.specs.Prelude.{◌≡◌, IfOk};
ghost use Rattle.sample_networks.specs.Networks.{four_nodes, one_way, parallel_links, three_ways, two_nodes};
ghost use Rattle.te_model.specs.ThreeNodes.{straight_routes, three_nodes};

use crate::literals::{network, weighted_routes};
use std::alloc::{AllocError, Global};
use te_model::{Items, Network, PairRoutes};

/// The nodes a and b, with a link there and one back.
pub fn two_nodes(alloc: Global) -> Result<Network, AllocError>
    ensures { IfOk result (λ n. n ≡ two_nodes) }
{
    network(alloc, &["a", "b"], &[(0, 1, 10, 1), (1, 0, 10, 1)])
}

/// The nodes a and b, with two links from a to b, of the capacities 10 and 30.
pub fn parallel_links(alloc: Global) -> Result<Network, AllocError>
    ensures { IfOk result (λ n. n ≡ parallel_links) }
{
    network(alloc, &["a", "b"], &[(0, 1, 10, 1), (0, 1, 30, 1)])
}

/// The nodes a, b and c, with a link from a to b and one from b to c.
pub fn one_way(alloc: Global) -> Result<Network, AllocError>
    ensures { IfOk result (λ n. n ≡ one_way) }
{
    network(alloc, &["a", "b", "c"], &[(0, 1, 10, 1), (1, 2, 10, 1)])
}

/// The nodes a, b and c, with links from a and from b to c, and both ways between a and b.
pub fn three_nodes(alloc: Global) -> Result<Network, AllocError>
    ensures { IfOk result (λ n. n ≡ three_nodes) }
{
    let ends = [(0, 2, 10, 1), (1, 2, 10, 1), (0, 1, 10, 1), (1, 0, 10, 1)];
    network(alloc, &["a", "b", "c"], &ends)
}

/// The pairs of these three nodes from a and from b to c, each on its own link.
pub fn straight_routes(alloc: Global) -> Result<Items<PairRoutes>, AllocError>
    ensures { IfOk result (λ r. r ≡ straight_routes) }
{
    weighted_routes(
        alloc,
        &[(0, 2, &[(&[0], 1_000_000)]), (1, 2, &[(&[1], 1_000_000)])],
    )
}

/// The nodes s, t, x and y: a straight link from s to t, a way over x, and a narrow way over y to x.
pub fn four_nodes(alloc: Global) -> Result<Network, AllocError>
    ensures { IfOk result (λ n. n ≡ four_nodes) }
{
    let ends = [
        (0, 1, 10, 1),
        (0, 2, 10, 1),
        (2, 1, 10, 1),
        (0, 3, 3, 3),
        (3, 2, 3, 3),
    ];
    network(alloc, &["s", "t", "x", "y"], &ends)
}

/// The nodes s, x, y, z and t: three ways of two links from s to t, of which the last link has this cost.
pub fn three_ways(alloc: Global, last: u32) -> Result<Network, AllocError>
    ensures { IfOk result (λ n. n ≡ three_ways last) }
{
    let ends = [
        (0, 1, 10, 1),
        (0, 2, 10, 1),
        (0, 3, 10, 1),
        (1, 4, 10, 1),
        (2, 4, 10, 1),
        (3, 4, 10, last),
    ];
    network(alloc, &["s", "x", "y", "z", "t"], &ends)
}
