//! Trees of centers, and the tree path of a pair.
ghost use Rattle.std.specs.Prelude.{◌≡◌, ◌≢◌, ◌<◌, IfOk};
ghost use Rattle.te_model.specs.Network.{node_count};
ghost use Rattle.sample_networks.specs.Networks.{one_way, two_nodes};
ghost use Rattle.scheme_tests.specs.TreeEmbedSamples.{triangle};

use sample_networks::{network, one_way, two_nodes};
use std::alloc::{AllocError, Global};
use te_model::{Memory, Network};
use tree_embed::*;

/// The nodes a, b and c, with links both ways between any two.
fn triangle(alloc: Global) -> Result<Network, AllocError>
    ensures { IfOk result (λ n. n ≡ triangle) }
{
    let ends = [
        (0, 1, 10, 1),
        (1, 0, 10, 1),
        (0, 2, 10, 1),
        (2, 0, 10, 1),
        (1, 2, 10, 1),
        (2, 1, 10, 1),
    ];
    network(alloc, &["a", "b", "c"], &ends)
}

/// Two nodes at a distance of 1,024, which is the radius of level 10.
fn near(alloc: Global, net: &Network) -> Result<Tree, Memory>
    requires { net.now ≡ two_nodes }
    ensures { IfOk result (λ t. t.network ≡ net.now) }
{
    embed(alloc, net, &[1024, 1024], &[0, 1], 16)
}

/// A node that is not reached back from any other.
fn unreached(alloc: Global, net: &Network) -> Result<Tree, Memory>
    requires { net.now ≡ one_way }
    ensures { IfOk result (λ t. t.network ≡ net.now) }
{
    embed(alloc, net, &[1024, 1024], &[0, 1, 2], 16)
}

/// The node a is the center of b and c, which are farther from each other.
fn around(alloc: Global, net: &Network) -> Result<Tree, Memory>
    requires { net.now ≡ triangle }
    ensures { IfOk result (λ t. t.network ≡ net.now) }
{
    embed(
        alloc,
        net,
        &[1024, 1024, 1024, 1024, 1500, 1500],
        &[0, 1, 2],
        16,
    )
}

/// The node b is the center of a, which is the center of c.
fn aside(alloc: Global, net: &Network) -> Result<Tree, Memory>
    requires { net.now ≡ triangle }
    ensures { IfOk result (λ t. t.network ≡ net.now) }
{
    embed(
        alloc,
        net,
        &[1024, 1024, 1024, 1024, 4096, 4096],
        &[1, 0, 2],
        16,
    )
}

/// Whether the tree path has these links.
fn leads_over(alloc: Global, tree: &Tree, net: &Network, src: u32, dst: u32, links: &[u32]) -> bool
    requires own { tree.now.network ≡ net.now }
    requires src { src < node_count net.now }
    requires dst { dst < node_count net.now }
    requires apart { src ≢ dst }
{
    match tree.tree_path(alloc, net, src, dst) {
        Ok(Some(path)) => path.links.as_slice() == links,
        _ => false,
    }
}

/// Whether the tree of two near nodes has one center of both from level 10 on, and both links as tree paths.
fn has_one_center(alloc: Global, tree: &Tree, net: &Network) -> bool
    requires own { tree.now.network ≡ net.now }
    requires net { net.now ≡ two_nodes }
{
    let centers = (tree.center(9, 1) == 1) & (tree.center(10, 1) == 0);
    let back = leads_over(alloc, tree, net, 1, 0, &[1]);
    centers & back & leads_over(alloc, tree, net, 0, 1, &[0])
}

fn near_tree_has_one_center(alloc: Global, net: &Network) -> bool
    requires { net.now ≡ two_nodes }
{
    match near(alloc, net) {
        Ok(tree) => has_one_center(alloc, &tree, net),
        Err(_) => false,
    }
}

fn near_nodes_have_one_center(alloc: Global) -> bool {
    match two_nodes(alloc) {
        Ok(net) => near_tree_has_one_center(alloc, &net),
        Err(_) => false,
    }
}

/// Whether no tree path leads from the last of the three nodes to the first.
fn leads_nowhere(alloc: Global, tree: &Tree, net: &Network) -> bool
    requires own { tree.now.network ≡ net.now }
    requires net { net.now ≡ one_way }
{
    match tree.tree_path(alloc, net, 2, 0) {
        Ok(path) => path.is_none(),
        Err(_) => false,
    }
}

/// Whether the tree paths are the least paths: where one between centers does not exist, the least path is taken.
fn has_least_paths(alloc: Global, tree: &Tree, net: &Network) -> bool
    requires own { tree.now.network ≡ net.now }
    requires net { net.now ≡ one_way }
{
    let centers = (tree.center(35, 2) == 2) & (tree.center(TOP_LEVEL, 2) == 0);
    let near = leads_over(alloc, tree, net, 1, 2, &[1]);
    let far = leads_over(alloc, tree, net, 0, 2, &[0, 1]);
    let nodes = tree.network().names.as_slice().len() == 3;
    centers & near & far & nodes & leads_nowhere(alloc, tree, net)
}

fn unreached_tree_has_least_paths(alloc: Global, net: &Network) -> bool
    requires { net.now ≡ one_way }
{
    match unreached(alloc, net) {
        Ok(tree) => has_least_paths(alloc, &tree, net),
        Err(_) => false,
    }
}

fn nodes_not_reached_back_have_least_paths(alloc: Global) -> bool {
    match one_way(alloc) {
        Ok(net) => unreached_tree_has_least_paths(alloc, &net),
        Err(_) => false,
    }
}

/// Whether the tree path from b to c leads over a, the center of both.
fn leads_over_center(alloc: Global, tree: &Tree, net: &Network) -> bool
    requires own { tree.now.network ≡ net.now }
    requires net { net.now ≡ triangle }
{
    leads_over(alloc, tree, net, 1, 2, &[1, 2])
}

fn around_tree_leads_over_center(alloc: Global, net: &Network) -> bool
    requires { net.now ≡ triangle }
{
    match around(alloc, net) {
        Ok(tree) => leads_over_center(alloc, &tree, net),
        Err(_) => false,
    }
}

/// Whether the tree path from a to c over two centers has no loop.
fn has_no_loop(alloc: Global, tree: &Tree, net: &Network) -> bool
    requires own { tree.now.network ≡ net.now }
    requires net { net.now ≡ triangle }
{
    let centers = (tree.center(10, 0) == 1) & (tree.center(10, 2) == 0);
    centers & leads_over(alloc, tree, net, 0, 2, &[2])
}

fn aside_tree_has_no_loop(alloc: Global, net: &Network) -> bool
    requires { net.now ≡ triangle }
{
    match aside(alloc, net) {
        Ok(tree) => has_no_loop(alloc, &tree, net),
        Err(_) => false,
    }
}

/// Whether the tree paths in the triangle lead over the centers, and have no loop.
fn triangle_paths_lead_over_centers(alloc: Global) -> bool {
    match triangle(alloc) {
        Ok(net) => around_tree_leads_over_center(alloc, &net) & aside_tree_has_no_loop(alloc, &net),
        Err(_) => false,
    }
}

#[test]
fn tree_paths_lead_over_centers(rt: HostRuntime) {
    assert!(rt; near_nodes_have_one_center(rt.alloc()));
    assert!(rt; nodes_not_reached_back_have_least_paths(rt.alloc()));
    assert!(rt; triangle_paths_lead_over_centers(rt.alloc()));
}
