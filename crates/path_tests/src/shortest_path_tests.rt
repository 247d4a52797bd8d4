//! Least distances, and the paths that have them, by lengths of 1, 1, 1, 3 and 3.
ghost use Rattle.std.specs.Prelude.{◌≡◌, ◌≢◌, ◌<◌, length};
ghost use Rattle.te_model.specs.Network.{node_count};
ghost use Rattle.sample_networks.specs.Networks.{four_nodes};

use sample_networks::four_nodes;
use shortest_path::*;
use std::alloc::Global;
use te_model::{Memory, Network};

/// Whether these are the least distances of the nodes from this one.
fn are_distances(alloc: Global, net: &Network, src: u32, expected: &[Option<u64>]) -> bool
    requires net { net.now ≡ four_nodes }
    requires src { src < node_count net.now }
{
    match distances(alloc, net, &[1, 1, 1, 3, 3], src) {
        Ok(sums) => sums.as_slice() == expected,
        Err(_) => false,
    }
}

/// Whether the distances from s and from t are least.
fn are_sums_least(alloc: Global, net: &Network) -> bool
    requires { net.now ≡ four_nodes }
{
    let from_s = are_distances(alloc, net, 0, &[Some(0), Some(1), Some(1), Some(3)]);
    // No link leaves t.
    from_s & are_distances(alloc, net, 1, &[None, Some(0), None, None])
}

/// Whether the potentials from t are the greatest that its own can be, as no link leaves it.
fn are_potentials_greatest(alloc: Global, net: &Network) -> bool
    requires { net.now ≡ four_nodes }
{
    match potentials(alloc, net, &[1, 1, 1, 3, 3], 1) {
        Ok(sums) => sums.as_slice() == [0, 0, 0, 0].as_slice(),
        Err(_) => false,
    }
}

/// Whether the least path from s to x is their link.
fn leads_over_link(alloc: Global, net: &Network) -> bool
    requires { net.now ≡ four_nodes }
{
    match least_path(alloc, net, &[1, 1, 1, 3, 3], 0, 2) {
        Ok(Some(path)) => path.links.as_slice() == [1].as_slice(),
        _ => false,
    }
}

/// Whether there is no path from t to s.
fn leads_nowhere(alloc: Global, net: &Network) -> bool
    requires { net.now ≡ four_nodes }
{
    match least_path(alloc, net, &[1, 1, 1, 3, 3], 1, 0) {
        Ok(path) => path.is_none(),
        Err(_) => false,
    }
}

/// The walk between two nodes along the first links toward the second, where these links are open.
fn walk_over(
    alloc: Global,
    net: &Network,
    marks: &[bool],
    src: u32,
    dst: u32,
) -> Result<Option<Vec<u32>>, Memory>
    requires net { net.now ≡ four_nodes }
    requires marks { length marks.now ≡ 5 }
    requires src { src < 4 }
    requires dst { dst < 4 }
{
    let lengths = [1, 1, 1, 3, 3];
    let sums = toward(alloc, net, &lengths, marks, dst)?;
    let firsts = first_links(alloc, net, &lengths, marks, &sums)?;
    walk_along(alloc, net, &sums, &firsts, src, dst)
}

/// Whether there is no walk between the nodes over the open links.
fn has_no_walk(alloc: Global, net: &Network, marks: &[bool], src: u32, dst: u32) -> bool
    requires net { net.now ≡ four_nodes }
    requires marks { length marks.now ≡ 5 }
    requires src { src < 4 }
    requires dst { dst < 4 }
{
    match walk_over(alloc, net, marks, src, dst) {
        Ok(walk) => walk.is_none(),
        Err(_) => false,
    }
}

/// Whether the walk from s to t leads over these links.
fn has_walk(alloc: Global, net: &Network, marks: &[bool], links: &[u32]) -> bool
    requires net { net.now ≡ four_nodes }
    requires marks { length marks.now ≡ 5 }
{
    match walk_over(alloc, net, marks, 0, 1) {
        Ok(Some(walk)) => walk.as_slice() == links,
        _ => false,
    }
}

/// Whether walks from s to t lead over x and y where links are closed, and none is left where both links to t are.
fn are_walks_of_open_links(alloc: Global, net: &Network) -> bool
    requires { net.now ≡ four_nodes }
{
    let over_x = has_walk(alloc, net, &[false, true, true, true, true], &[1, 2]);
    let over_y = has_walk(alloc, net, &[false, false, true, true, true], &[3, 4, 2]);
    let is_cut = has_no_walk(alloc, net, &[false, true, false, true, true], 0, 1);
    over_x & over_y & is_cut & has_no_walk(alloc, net, &[true; 5], 1, 0)
}

fn walks_lead_over_open_links(alloc: Global) -> bool {
    match four_nodes(alloc) {
        Ok(net) => are_walks_of_open_links(alloc, &net),
        Err(_) => false,
    }
}

fn sums_are_least(alloc: Global) -> bool {
    match four_nodes(alloc) {
        Ok(net) => are_sums_least(alloc, &net),
        Err(_) => false,
    }
}

fn potentials_out_of_reach_are_greatest(alloc: Global) -> bool {
    match four_nodes(alloc) {
        Ok(net) => are_potentials_greatest(alloc, &net),
        Err(_) => false,
    }
}

fn paths_are_least(alloc: Global) -> bool {
    match four_nodes(alloc) {
        Ok(net) => leads_over_link(alloc, &net) & leads_nowhere(alloc, &net),
        Err(_) => false,
    }
}

#[test]
fn sums_and_paths_are_least(rt: HostRuntime) {
    assert!(rt; sums_are_least(rt.alloc()));
    assert!(rt; potentials_out_of_reach_are_greatest(rt.alloc()));
    assert!(rt; paths_are_least(rt.alloc()));
    assert!(rt; walks_lead_over_open_links(rt.alloc()));
}
