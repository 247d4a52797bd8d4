//! Routings: shares, loads, loops that are cut, equal paths that are merged, and flows that come apart into paths.
ghost use Rattle.std.specs.Prelude.{◌≡◌, ◌^◌, ◌<◌, ◌∷◌, [], IfOk, IsTrue, length, vec_len};
ghost use Rattle.te_model.specs.Network.{is_well_formed};
ghost use Rattle.routing.specs.Routes.{AreDemands};
ghost use Rattle.path_tests.specs.RoutingSamples.{fork, halves, three_middles, way_and_back};

use crate::thirds::THIRDS;
use routing::*;
use sample_networks::{are_paths, matrix, network, weighted_paths, weighted_routes};
use std::alloc::{AllocError, Global};
use te_model::{Items, Matrix, Memory, Network, Pair, Path, PathShare};

/// The nodes s, t and x: a straight link from s to t, a way over x, and a link from x back to s.
fn way_and_back(alloc: Global) -> Result<Network, AllocError>
    ensures { IfOk result (λ n. n ≡ way_and_back) }
{
    let ends = [(0, 1, 10, 1), (0, 2, 10, 1), (2, 1, 10, 1), (2, 0, 10, 1)];
    network(alloc, &["s", "t", "x"], &ends)
}

/// Whether the only pair has these shares on the links 0, 2 and 3.
fn has_shares(routing: &Routing) -> bool
    requires { 0 < length routing.now.routes }
{
    let first = routing.share(0, 0) == 750_000;
    let third = routing.share(0, 2) == 250_000;
    first & third & (routing.share(0, 3) == 0)
}

/// Whether link 0 has a load of 6, and the greatest utilisation is 0.6.
fn has_load_and_parts(net: &Network, matrix: &Matrix, routing: &Routing) -> bool
    requires network { IsTrue (is_well_formed net.now) }
    requires pairs { length routing.now.routes < 2 ^ 32 }
    requires demands { AreDemands (length routing.now.routes) matrix.now.demand }
{
    (routing.load(matrix, 0) == 6_000_000) & (routing.parts(net, matrix) == 600_000)
}

/// Whether the matrix has a load of 6 on link 0 by this routing, which has these shares.
fn has_shares_and_load(net: &Network, matrix: &Matrix, routing: &Routing) -> bool
    requires net { net.now ≡ way_and_back }
    requires routing { length routing.now.routes ≡ 1 }
    requires matrix { matrix.now.demand ≡ 8 ∷ [] }
{
    has_shares(routing) & has_load_and_parts(net, matrix, routing)
}

/// Three quarters of the demand from s to t over the straight link, and the rest over x.
fn three_quarters_straight(alloc: Global) -> Result<Routing, AllocError>
    ensures { IfOk result (λ r. length r.routes ≡ 1) }
{
    let routes = weighted_routes(alloc, &[(0, 1, &[(&[0], 750_000), (&[1, 2], 250_000)])])?;
    Ok(Routing { routes })
}

fn shares_give_load(alloc: Global, net: &Network, routing: &Routing) -> bool
    requires net { net.now ≡ way_and_back }
    requires routing { length routing.now.routes ≡ 1 }
{
    match matrix(alloc, &[8]) {
        Ok(matrix) => has_shares_and_load(net, &matrix, routing),
        Err(_) => false,
    }
}

fn three_quarters_give_load(alloc: Global, net: &Network) -> bool
    requires { net.now ≡ way_and_back }
{
    match three_quarters_straight(alloc) {
        Ok(routing) => shares_give_load(alloc, net, &routing),
        Err(_) => false,
    }
}

fn shares_give_loads_and_utilisation(alloc: Global) -> bool {
    match way_and_back(alloc) {
        Ok(net) => three_quarters_give_load(alloc, &net),
        Err(_) => false,
    }
}

/// Whether the walk from s over x and back to s, and then straight to t, is cut to the straight link.
fn is_cut(alloc: Global, net: &Network) -> bool
    requires { net.now ≡ way_and_back }
{
    match cut_loops(alloc, net, 0, &[1, 3, 0]) {
        Ok(cut) => cut.as_slice() == [0].as_slice(),
        Err(_) => false,
    }
}

fn loop_is_cut(alloc: Global) -> bool {
    match way_and_back(alloc) {
        Ok(net) => is_cut(alloc, &net),
        Err(_) => false,
    }
}

/// What three weighted paths become, of which the first and the last are equal.
fn merged(alloc: Global) -> Result<Vec<PathShare>, Memory> {
    let parts = weighted_paths(
        alloc,
        &[(&[0], 500_000), (&[1, 2], 250_000), (&[0], 250_000)],
    )?;
    merge(alloc, parts)
}

fn equal_paths_become_one(alloc: Global) -> bool {
    match merged(alloc) {
        Ok(merged) => are_paths(&merged, &[(&[0], 750_000), (&[1, 2], 250_000)]),
        Err(_) => false,
    }
}

#[test]
fn shares_give_loads_and_loops_are_cut(rt: HostRuntime) {
    assert!(rt; shares_give_loads_and_utilisation(rt.alloc()));
    assert!(rt; loop_is_cut(rt.alloc()));
    assert!(rt; equal_paths_become_one(rt.alloc()));
}

/// The nodes s, t, x, y and z, with links from s to each of x, y and z, and from each of these to t.
fn three_middles(alloc: Global) -> Result<Network, AllocError>
    ensures { IfOk result (λ n. n ≡ three_middles) }
{
    let ends = [
        (0, 2, 10, 1),
        (0, 3, 10, 1),
        (0, 4, 10, 1),
        (2, 1, 10, 1),
        (3, 1, 10, 1),
        (4, 1, 10, 1),
    ];
    network(alloc, &["s", "t", "x", "y", "z"], &ends)
}

/// A third of the demand from s to t over each of x, y and z.
fn thirds_apart(alloc: Global, net: &Network) -> Result<Vec<PathShare>, Memory>
    requires { net.now ≡ three_middles }
{
    let thirds = [333_334, 333_333, 333_333, 333_334, 333_333, 333_333];
    decompose(alloc, net, Pair { src: 0, dst: 1 }, &thirds)
}

fn thirds_come_apart(alloc: Global, net: &Network) -> bool
    requires { net.now ≡ three_middles }
{
    match thirds_apart(alloc, net) {
        Ok(paths) => are_paths(&paths, THIRDS),
        Err(_) => false,
    }
}

fn flow_comes_apart_into_paths(alloc: Global) -> bool {
    match three_middles(alloc) {
        Ok(net) => thirds_come_apart(alloc, &net),
        Err(_) => false,
    }
}

#[test]
fn a_flow_comes_apart_into_paths(rt: HostRuntime) {
    assert!(rt; flow_comes_apart_into_paths(rt.alloc()));
}

/// The nodes a, m and b: a link from a to m, two from m to b, and one from b back to a.
fn fork(alloc: Global) -> Result<Network, AllocError>
    ensures { IfOk result (λ n. n ≡ fork) }
{
    let ends = [(0, 1, 10, 1), (1, 2, 10, 1), (1, 2, 10, 1), (2, 0, 10, 1)];
    network(alloc, &["a", "m", "b"], &ends)
}

/// From a to b and from m to b, each in halves over the two links from m to b.
fn halves(alloc: Global) -> Result<Routing, AllocError>
    ensures { IfOk result (λ r. r.routes ≡ halves) }
{
    let routes = weighted_routes(
        alloc,
        &[
            (0, 2, &[(&[0, 1], 500_000), (&[0, 2], 500_000)]),
            (1, 2, &[(&[1], 500_000), (&[2], 500_000)]),
        ],
    )?;
    Ok(Routing { routes })
}

/// Whether this is the greatest utilisation, by one pass over the routing and by a pass for each link.
fn is_greatest(
    alloc: Global,
    net: &Network,
    matrix: &Matrix,
    routing: &Routing,
    expected: u128,
) -> bool
    requires network { IsTrue (is_well_formed net.now) }
    requires pairs { length routing.now.routes < 2 ^ 32 }
    requires demands { AreDemands (length routing.now.routes) matrix.now.demand }
{
    match routing.greatest_utilisation(alloc, net, matrix) {
        Ok(greatest) => (greatest == expected) & (routing.parts(net, matrix) == expected),
        Err(_) => false,
    }
}

/// Whether these are the loads of the links, by one pass over the routing.
fn are_loads(
    alloc: Global,
    net: &Network,
    matrix: &Matrix,
    routing: &Routing,
    expected: &[u128],
) -> bool
    requires pairs { length routing.now.routes < 2 ^ 32 }
    requires demands { AreDemands (length routing.now.routes) matrix.now.demand }
{
    match routing.loads(alloc, net, matrix) {
        Ok(loads) => loads.as_slice() == expected,
        Err(_) => false,
    }
}

/// Whether the four links have loads of 8, 6, 6 and 0, by one pass over the routing and by a pass for each link.
fn are_loads_by_both(alloc: Global, net: &Network, matrix: &Matrix, routing: &Routing) -> bool
    requires pairs { length routing.now.routes < 2 ^ 32 }
    requires demands { AreDemands (length routing.now.routes) matrix.now.demand }
{
    let each = [
        routing.load(matrix, 0),
        routing.load(matrix, 1),
        routing.load(matrix, 2),
        routing.load(matrix, 3),
    ];
    let single = each == [8_000_000, 6_000_000, 6_000_000, 0];
    single & are_loads(alloc, net, matrix, routing, &each)
}

/// Whether both ways find the same loads, and the same greatest utilisation.
fn have_same_loads(alloc: Global, net: &Network, matrix: &Matrix, routing: &Routing) -> bool
    requires net { net.now ≡ fork }
    requires matrix { matrix.now.demand ≡ 8 ∷ 4 ∷ [] }
    requires routing { routing.now.routes ≡ halves }
{
    let greatest = is_greatest(alloc, net, matrix, routing, 800_000);
    greatest & are_loads_by_both(alloc, net, matrix, routing)
}

fn demands_have_same_loads(alloc: Global, net: &Network, routing: &Routing) -> bool
    requires net { net.now ≡ fork }
    requires routing { routing.now.routes ≡ halves }
{
    match matrix(alloc, &[8, 4]) {
        Ok(matrix) => have_same_loads(alloc, net, &matrix, routing),
        Err(_) => false,
    }
}

fn halves_have_same_loads(alloc: Global, net: &Network) -> bool
    requires { net.now ≡ fork }
{
    match halves(alloc) {
        Ok(routing) => demands_have_same_loads(alloc, net, &routing),
        Err(_) => false,
    }
}

fn loads_in_one_pass_are_those_of_single_links(alloc: Global) -> bool {
    match fork(alloc) {
        Ok(net) => halves_have_same_loads(alloc, &net),
        Err(_) => false,
    }
}

/// Whether a routing without pairs puts these loads on the links.
fn are_loads_of_none(alloc: Global, net: &Network, matrix: &Matrix, expected: &[u128]) -> bool
    requires { matrix.now.demand ≡ [] }
{
    let none = Routing {
        routes: Items::new(Vec::new(alloc)),
    };
    are_loads(alloc, net, matrix, &none, expected)
}

fn are_loads_without_pairs(alloc: Global, net: &Network, expected: &[u128]) -> bool {
    match matrix(alloc, &[]) {
        Ok(matrix) => are_loads_of_none(alloc, net, &matrix, expected),
        Err(_) => false,
    }
}

fn has_no_load_on_fork(alloc: Global) -> bool {
    match fork(alloc) {
        Ok(net) => are_loads_without_pairs(alloc, &net, &[0, 0, 0, 0]),
        Err(_) => false,
    }
}

fn has_no_load_without_links(alloc: Global) -> bool {
    match network(alloc, &["a", "m", "b"], &[]) {
        Ok(bare) => are_loads_without_pairs(alloc, &bare, &[]),
        Err(_) => false,
    }
}

#[test]
fn links_have_their_loads(rt: HostRuntime) {
    assert!(rt; loads_in_one_pass_are_those_of_single_links(rt.alloc()));
    assert!(rt; has_no_load_on_fork(rt.alloc()));
    assert!(rt; has_no_load_without_links(rt.alloc()));
}

/// The shares of the halves.
fn shares_of_halves(alloc: Global, net: &Network, routing: &Routing) -> Result<Shares, Memory>
    requires net { net.now ≡ fork }
    requires halves { routing.now.routes ≡ halves }
    ensures { IfOk result (λ s. length s ≡ 4) }
{
    Shares::new(alloc, net, routing)
}

fn shares_over(alloc: Global, net: &Network) -> Result<Shares, Memory>
    requires { net.now ≡ fork }
    ensures { IfOk result (λ s. length s ≡ 4) }
{
    let routing = halves(alloc)?;
    shares_of_halves(alloc, net, &routing)
}

/// The shares of the halves on the fork.
fn shares_on_fork(alloc: Global) -> Result<Shares, Memory>
    ensures { IfOk result (λ s. length s ≡ 4) }
{
    let net = fork(alloc)?;
    shares_over(alloc, &net)
}

/// All of the first pair.
const WHOLE: &[PairShare] = &[PairShare {
    pair: 0,
    share: 1_000_000,
}];

/// Half of each of the two pairs.
const HALF_EACH: &[PairShare] = &[
    PairShare {
        pair: 0,
        share: 500_000,
    },
    PairShare {
        pair: 1,
        share: 500_000,
    },
];

/// Whether each link has the pairs with a share on it.
fn have_pairs(shares: &Shares) -> bool
    requires { length shares.now ≡ 4 }
{
    let of_first = (shares.on(0) == WHOLE) & shares.on(3).is_empty();
    of_first & (shares.on(1) == HALF_EACH) & (shares.on(2) == HALF_EACH)
}

fn links_have_pairs_with_share(alloc: Global) -> bool {
    match shares_on_fork(alloc) {
        Ok(shares) => have_pairs(&shares),
        Err(_) => false,
    }
}

#[test]
fn each_link_has_the_pairs_with_a_share(rt: HostRuntime) {
    assert!(rt; links_have_pairs_with_share(rt.alloc()));
}

fn path(alloc: Global, links: &[u32]) -> Result<Path, AllocError> {
    let links = Vec::from_slice(alloc, links)?;
    Ok(Path {
        links: Items::new(links),
    })
}

/// Three paths of one link each, of which the first and the last are equal.
fn paths(alloc: Global) -> Result<Vec<Path>, AllocError>
    ensures { IfOk result (λ p. vec_len p ≡ 3) }
{
    let first = path(alloc, &[1])?;
    let second = path(alloc, &[0])?;
    let third = path(alloc, &[1])?;
    let paths = vec![in alloc; first, second, third]?;
    Ok(paths)
}

/// The even mix of the three paths.
fn mixed(alloc: Global) -> Result<Vec<PathShare>, Memory> {
    let paths = paths(alloc)?;
    even_mix(alloc, paths)
}

fn unit_left_goes_to_first_path(alloc: Global) -> bool {
    match mixed(alloc) {
        Ok(mixed) => are_paths(&mixed, &[(&[0], 333_333), (&[1], 666_667)]),
        Err(_) => false,
    }
}

#[test]
fn units_left_go_to_the_first_paths(rt: HostRuntime) {
    assert!(rt; unit_left_goes_to_first_path(rt.alloc()));
}
