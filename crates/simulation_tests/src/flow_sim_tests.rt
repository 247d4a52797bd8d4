//! Steps and what is left of a routing, on a network of four nodes.
ghost use Rattle.std.specs.Prelude.{◌≡◌, ◌^◌, ◌≤◌, [], ◌∷◌, IfOk, length};
ghost use Rattle.local_recovery.specs.Rates.{pairs_of, IsRates};
ghost use Rattle.sample_networks.specs.Literals.{pair_of};
ghost use Rattle.sample_networks.specs.Networks.{four_nodes};

use flow_sim::*;
use local_recovery::{Mode, Recovered, recover};
use routing::Routing;
use sample_networks::{WeightedPath, are_routes, four_nodes, matrix, pairs, weighted_routes};
use std::alloc::Global;
use te_model::{Memory, Network};

/// What is left of half of the demand on the straight link and half over x in the mode, where the marked links have failed.
fn left_of_two_ways(
    alloc: Global,
    mode: Mode,
    net: &Network,
    failed: &[bool],
) -> Result<Recovered, Memory>
    requires network { net.now ≡ four_nodes }
    requires marks { length failed.now ≡ 5 }
    ensures pairs { IfOk result (λ r. pairs_of r.routes ≡ pair_of (0, 1) ∷ []) }
    ensures rates { IfOk result (λ r. IsRates net.now r.routes) }
{
    let routes = weighted_routes(alloc, &[(0, 1, &[(&[0], 500_000), (&[1, 2], 500_000)])])?;
    recover(alloc, mode, net, failed, &Routing { routes })
}

/// A step with the demand on the rates, where the marked links have failed.
fn stepped(
    alloc: Global,
    net: &Network,
    failed: &[bool],
    rates: &Recovered,
    demand: u64,
) -> Result<StepResult, Memory>
    requires network { net.now ≡ four_nodes }
    requires marks { length failed.now ≡ 5 }
    requires pairs { pairs_of rates.now.routes ≡ pair_of (0, 1) ∷ [] }
    requires rates { IsRates net.now rates.now.routes }
    requires demand { demand ≤ 2 ^ 32 }
{
    let matrix = matrix(alloc, &[demand])?;
    step(alloc, net, failed, rates, &matrix)
}

/// Whether so many units were offered, delivered, and lost on full links, on failed links and for want of a path, and the links
/// carried so many.
fn is_result(found: &StepResult, amounts: [u64; 5], carried: [u64; 5]) -> bool {
    found.offered == amounts[0]
        && found.delivered == amounts[1]
        && found.lost_full == amounts[2]
        && found.lost_failed == amounts[3]
        && found.lost_no_path == amounts[4]
        && found.carried.as_slice() == carried.as_slice()
}

#[test]
fn fair_shares(rt: HostRuntime) {
    let mut served = [0, 0, 0];
    fair_share(10, &[3, 8, 8], &mut served);
    assert!(rt; served == [3, 4, 3]);
    fair_share(19, &[3, 8, 8], &mut served);
    assert!(rt; served == [3, 8, 8]);
    let mut one = [7];
    fair_share(0, &[3], &mut one);
    assert!(rt; one == [0]);
    let mut empty: [u64; 0] = [];
    fair_share(5, &[], &mut empty);
    assert!(rt; empty.is_empty());
}

/// The greatest demand.
const GREATEST: u64 = 1 << 32;

/// No link has failed.
const NONE: [bool; 5] = [false, false, false, false, false];

/// The first link of the way over x has failed.
const AROUND: [bool; 5] = [false, true, false, false, false];

/// That link and the straight one have failed.
const BOTH: [bool; 5] = [true, true, false, false, false];

/// A mode, the links that have failed, a demand, what becomes of it, and what the links carry.
type Step = (Mode, [bool; 5], u64, [u64; 5], [u64; 5]);

const STEPS: &[Step] = &[
    (Mode::Keep, NONE, 12, [12, 12, 0, 0, 0], [6, 6, 6, 0, 0]),
    (Mode::Keep, AROUND, 12, [12, 6, 0, 6, 0], [6, 0, 0, 0, 0]),
    (Mode::Scale, AROUND, 12, [12, 10, 2, 0, 0], [10, 0, 0, 0, 0]),
    (Mode::Scale, BOTH, 12, [12, 0, 0, 0, 12], [0, 0, 0, 0, 0]),
    (Mode::Bypass, AROUND, 12, [12, 9, 3, 0, 0], [6, 0, 3, 3, 3]),
    (
        Mode::Keep,
        NONE,
        GREATEST,
        [4_294_967_296, 20, 4_294_967_276, 0, 0],
        [10, 10, 10, 0, 0],
    ),
];

/// Whether a demand of a step, within the limits, has these results on the rates.
fn has_result(alloc: Global, net: &Network, rates: &Recovered, row: &Step) -> bool
    requires network { net.now ≡ four_nodes }
    requires pairs { pairs_of rates.now.routes ≡ pair_of (0, 1) ∷ [] }
    requires rates { IsRates net.now rates.now.routes }
{
    let (_, failed, demand, amounts, carried) = *row;
    if demand > GREATEST {
        return false;
    }
    match stepped(alloc, net, &failed, rates, demand) {
        Ok(found) => is_result(&found, amounts, carried),
        Err(_) => false,
    }
}

fn is_step_of(alloc: Global, net: &Network, row: &Step) -> bool
    requires { net.now ≡ four_nodes }
{
    match left_of_two_ways(alloc, row.0, net, &row.1) {
        Ok(rates) => has_result(alloc, net, &rates, row),
        Err(_) => false,
    }
}

/// Whether the step of the row has its results on the four nodes.
fn is_step(alloc: Global, row: &Step) -> bool {
    match four_nodes(alloc) {
        Ok(net) => is_step_of(alloc, &net, row),
        Err(_) => false,
    }
}

#[test]
fn steps(rt: HostRuntime) {
    for row in STEPS {
        assert!(rt; is_step(rt.alloc(), row), "{row:?}");
    }
}

/// Half of the demand on the straight link, and half over x.
const TWO_WAYS: &[WeightedPath] = &[(&[0], 500_000), (&[1, 2], 500_000)];

/// All of it on the straight link.
const STRAIGHT: &[WeightedPath] = &[(&[0], 1_000_000)];

/// Half of it on the straight link, and half over y and x.
const STRAIGHT_AND_BYPASS: &[WeightedPath] = &[(&[0], 500_000), (&[3, 4, 2], 500_000)];

/// All of it over y and x.
const BYPASS: &[WeightedPath] = &[(&[3, 4, 2], 1_000_000)];

const NO_PATH: &[WeightedPath] = &[];

/// A mode, the links that have failed, and the paths that are left of the two ways.
type Left = (Mode, [bool; 5], &'static [WeightedPath<'static>]);

const LEFT: &[Left] = &[
    (Mode::Keep, AROUND, TWO_WAYS),
    (Mode::Scale, AROUND, STRAIGHT),
    (Mode::Scale, BOTH, NO_PATH),
    (Mode::Bypass, AROUND, STRAIGHT_AND_BYPASS),
    (Mode::Bypass, BOTH, BYPASS),
];

fn is_left_of(alloc: Global, net: &Network, row: &Left) -> bool
    requires { net.now ≡ four_nodes }
{
    match left_of_two_ways(alloc, row.0, net, &row.1) {
        Ok(rates) => are_routes(rates.routes.as_slice(), &[(0, 1, row.2)]),
        Err(_) => false,
    }
}

/// Whether the paths of the row are left on the four nodes.
fn is_left(alloc: Global, row: &Left) -> bool {
    match four_nodes(alloc) {
        Ok(net) => is_left_of(alloc, &net, row),
        Err(_) => false,
    }
}

#[test]
fn what_is_left(rt: HostRuntime) {
    for row in LEFT {
        assert!(rt; is_left(rt.alloc(), row), "{row:?}");
    }
}

/// The rates of the pair (s, t) over the pairs (s, t) and (t, s).
fn spread_back(alloc: Global, rates: Recovered) -> Result<Recovered, Memory>
    requires { pairs_of rates.routes ≡ pair_of (0, 1) ∷ [] }
{
    let pairs = pairs(alloc, &[(0, 1), (1, 0)])?;
    rates.spread(alloc, &pairs)
}

/// The two ways from s to t over the pairs (s, t) and (t, s).
fn two_ways_spread_back(alloc: Global, net: &Network) -> Result<Recovered, Memory>
    requires { net.now ≡ four_nodes }
{
    let rates = left_of_two_ways(alloc, Mode::Keep, net, &NONE)?;
    spread_back(alloc, rates)
}

/// Whether the pair (t, s) has no path there.
fn has_no_path_back(alloc: Global, net: &Network) -> bool
    requires { net.now ≡ four_nodes }
{
    match two_ways_spread_back(alloc, net) {
        Ok(rates) => are_routes(
            rates.routes.as_slice(),
            &[(0, 1, TWO_WAYS), (1, 0, NO_PATH)],
        ),
        Err(_) => false,
    }
}

/// Whether a pair that is added has no path.
fn has_added_pair_no_path(alloc: Global) -> bool {
    match four_nodes(alloc) {
        Ok(net) => has_no_path_back(alloc, &net),
        Err(_) => false,
    }
}

#[test]
fn an_added_pair_has_no_path(rt: HostRuntime) {
    assert!(rt; has_added_pair_no_path(rt.alloc()));
}
