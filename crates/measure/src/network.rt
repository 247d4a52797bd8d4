//! The network on which is measured.
use std::alloc::{AllocError, Global};
use std::io;
use te_model::{Items, Link, Name, Network};

/// How many nodes the network has.
pub const NODES: u32 = 64;

/// The next number of a linear congruential generator (Knuth's constants).
pub fn next_number(state: &mut u64) -> u32 {
    *state = state
        .wrapping_mul(6364136223846793005)
        .wrapping_add(1442695040888963407);
    (*state >> 33) as u32
}

fn names(alloc: Global) -> Result<Vec<Name>, AllocError> {
    let mut names = Vec::new(alloc);
    for node in 0..NODES {
        names.push(Name::new(format!(in alloc; "n{node}")?))?;
    }
    Ok(names)
}

// Adds eight links from the node.
fn add_links(links: &mut Vec<Link>, tail: u32, state: &mut u64) -> Result<(), AllocError> {
    let first = next_number(state) % 63;
    for k in 0..8u32 {
        links.push(Link {
            tail,
            head: (tail.wrapping_add(1 + (first + 5 * k) % 63)) % NODES,
            capacity: 10_000 + u64::from(next_number(state) % 90_000),
            cost: 1 + next_number(state) % 20,
        })?;
    }
    Ok(())
}

fn links(alloc: Global) -> Result<Vec<Link>, AllocError> {
    let mut links = Vec::new(alloc);
    let mut state = 7u64;
    for tail in 0..NODES {
        add_links(&mut links, tail, &mut state)?;
    }
    Ok(links)
}

/// Eight links from each of 64 nodes, to nodes of which no two are the same.
///
/// The costs are from 1 to 20, the capacities from 10,000 to 99,999.
pub fn network(alloc: Global) -> Result<Network, AllocError> {
    let links = links(alloc)?;
    Ok(Network {
        names: Items::new(names(alloc)?),
        links: Items::new(links),
    })
}

fn print_all(rt: &HostRuntime, links: &[Link]) -> io::Result<()> {
    for link in links {
        let (tail, head, cost) = (link.tail, link.head, link.cost);
        println!(rt; "{tail} {head} {cost}")?;
    }
    Ok(())
}

/// Prints the links of the network, one on each line as `tail head cost`, and gives the status: 3 where that fails.
pub fn print_links(rt: &HostRuntime) -> u8 {
    match network(rt.alloc()) {
        Ok(net) if print_all(rt, net.links.as_slice()).is_ok() => 0,
        _ => 3,
    }
}
