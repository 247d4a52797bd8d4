//! What links carry together: those that leave a node, those that lead to one, and those from one to another.
ghost use Rattle.std.specs.Prelude.{◌≡◌, ◌&&◌, ◌==◌, if◌then◌else◌};
ghost use Rattle.witness_search.specs.Candidates.{capacity_between};
ghost use Rattle.witness_search.specs.RouteLimits.{HasSmallLinks};
ghost use Rattle.ratio_witness.specs.Witness.{capacity_from, capacity_into};

use te_model::{Link, Network, Pair};

// The capacity of the link where it leaves the node, and else 0.
fn part_from(link: Link, node: u32) -> u64
    ensures { result ≡ (if link.tail == node then link.capacity else 0) }
{
    if link.tail == node { link.capacity } else { 0 }
}

// The capacity of the link where it leads to the node, and else 0.
fn part_into(link: Link, node: u32) -> u64
    ensures { result ≡ (if link.head == node then link.capacity else 0) }
{
    if link.head == node { link.capacity } else { 0 }
}

// The capacity of the link where it goes from the source of the pair to its destination, and else 0.
fn part_between(link: Link, pair: Pair) -> u64
    ensures { result ≡ (if link.tail == pair.src && link.head == pair.dst then link.capacity else 0) }
{
    if link.tail == pair.src && link.head == pair.dst {
        link.capacity
    } else {
        0
    }
}

/// What the links that leave the node carry together at most.
pub fn capacity_from(net: &Network, node: u32) -> u64
    requires { HasSmallLinks net.now }
    ensures { result ≡ capacity_from net.now node }
{
    let mut total = 0;
    for link in net.links.as_slice() {
        total += part_from(*link, node);
    }
    total
}

/// What the links that lead to the node carry together at most.
pub fn capacity_into(net: &Network, node: u32) -> u64
    requires { HasSmallLinks net.now }
    ensures { result ≡ capacity_into net.now node }
{
    let mut total = 0;
    for link in net.links.as_slice() {
        total += part_into(*link, node);
    }
    total
}

/// What the links from the source of the pair to its destination carry together at most.
pub fn capacity_between(net: &Network, pair: Pair) -> u64
    requires { HasSmallLinks net.now }
    ensures { result ≡ capacity_between net.now pair }
{
    let mut total = 0;
    for link in net.links.as_slice() {
        total += part_between(*link, pair);
    }
    total
}
