//! The best blocks of links and what they need, of the straight routes of three nodes.
ghost use Rattle.std.specs.Prelude.{◌≡◌, ◌^◌, ◌<◌, ◌≤◌, All, IfOk, length};
ghost use Rattle.te_model.specs.ThreeNodes.{straight_routes, three_nodes};
ghost use Rattle.best_blocks.specs.Conditions.{IsSetWithin};

use ratio_certificate::*;
use routing::Routing;
use sample_networks::{matrix, straight_routes, three_nodes};
use std::alloc::{AllocError, Global};
use std::process::Abort;
use te_model::{Block, DemandSet, Memory, Network, Row};

/// The straight routes as a routing.
pub fn straight_routing(alloc: Global) -> Result<Routing, AllocError>
    ensures { IfOk result (λ r. r.routes ≡ straight_routes) }
{
    Ok(Routing {
        routes: straight_routes(alloc)?,
    })
}

/// A set of matrices. The last two have the same matrices, those in which both demands are equal.
#[derive(Clone, Copy)]
enum Demands {
    All,
    Margin,
    Box,
}

/// The set, of which the demands of the base and the bounds are 10.
fn set_of(alloc: Global, demands: Demands) -> Result<DemandSet, AllocError>
    ensures { IfOk result (IsSetWithin 2) }
{
    match demands {
        Demands::All => Ok(DemandSet::All),
        Demands::Margin => Ok(DemandSet::Margin {
            num: 1,
            den: 1,
            base: matrix(alloc, &[10, 10])?,
        }),
        Demands::Box => Ok(DemandSet::Box {
            lower: matrix(alloc, &[10, 10])?,
            upper: matrix(alloc, &[10, 10])?,
        }),
    }
}

/// Whether the rows have these sources and potentials.
fn are_rows(rows: &[Row], expected: &[(u32, [u64; 3])]) -> bool {
    if rows.len() != expected.len() {
        return false;
    }
    for place in 0..rows.len() {
        let (source, potential) = expected[place];
        if rows[place].source != source
            || rows[place].potential.as_slice() != potential.as_slice()
        {
            return false;
        }
    }
    true
}

/// The weights of the best blocks.
const WEIGHTS: &[u64] = &[1, 1, 0, 0];

/// The best block of the first link for a set and these weights, in which a is one million.
#[derive(Clone, Copy)]
struct BestBlock<'a> {
    demands: Demands,
    b: u64,
    rows: &'a [(u32, [u64; 3])],
    plus: &'a [u64],
    minus: &'a [u64],
    need: u128,
}

// The sets in which both demands are equal give the same block.
const BEST_BLOCKS: &[BestBlock] = &[
    BestBlock {
        demands: Demands::All,
        b: 1,
        rows: &[(0, [0, 0, 1])],
        plus: &[],
        minus: &[],
        need: 2_000_000,
    },
    BestBlock {
        demands: Demands::Margin,
        b: 2,
        rows: &[(0, [0, 0, 1]), (1, [0, 0, 1])],
        plus: &[1, 0],
        minus: &[0, 1],
        need: 1_000_000,
    },
    BestBlock {
        demands: Demands::Box,
        b: 2,
        rows: &[(0, [0, 0, 1]), (1, [0, 0, 1])],
        plus: &[1, 0],
        minus: &[0, 1],
        need: 1_000_000,
    },
];

/// Whether the block is the best one.
fn is_block(block: &Block, best: &BestBlock) -> bool {
    let numbers = (block.link == 0) & (block.a == 1_000_000) & (block.b == best.b);
    let rows = are_rows(block.rows.as_slice(), best.rows);
    let counters = (block.plus.as_slice() == best.plus) & (block.minus.as_slice() == best.minus);
    numbers & rows & counters & (block.weights.as_slice() == WEIGHTS)
}

/// How much the best block of the first link needs for the set, or none where the weights have none.
fn need_of(
    alloc: Global,
    net: &Network,
    routing: &Routing,
    set: &DemandSet,
    weights: &[u64],
) -> Result<Option<u128>, Memory>
    requires network { net.now ≡ three_nodes }
    requires routes { routing.now.routes ≡ straight_routes }
    requires set { IsSetWithin 2 set.now }
    requires count { length weights.now ≡ 4 }
    requires small { All (λ w. w ≤ 2 ^ 28) weights.now }
{
    match scale(alloc, net, routing, set, 0, weights)? {
        Some(block) => {
            let least = need(net, &block);
            Ok(Some(least))
        }
        None => Ok(None),
    }
}

/// Whether the best block of the first link for the set is this one, and needs as much.
fn is_best(
    alloc: Global,
    net: &Network,
    routing: &Routing,
    set: &DemandSet,
    best: &BestBlock,
) -> bool
    requires network { net.now ≡ three_nodes }
    requires routes { routing.now.routes ≡ straight_routes }
    requires set { IsSetWithin 2 set.now }
{
    let needs = need_of(alloc, net, routing, set, WEIGHTS) == Ok(Some(best.need));
    match scale(alloc, net, routing, set, 0, WEIGHTS) {
        Ok(Some(block)) => needs & is_block(&block, best),
        _ => false,
    }
}

/// Whether the best block for these demands is this one, and needs as much.
fn is_found(
    alloc: Global,
    net: &Network,
    routing: &Routing,
    best: &BestBlock,
) -> Result<bool, Memory>
    requires network { net.now ≡ three_nodes }
    requires routes { routing.now.routes ≡ straight_routes }
{
    let set = set_of(alloc, best.demands)?;
    Ok(is_best(alloc, net, routing, &set, best))
}

/// Best blocks are those found by hand.
fn all_are_found(rt: &impl Abort, alloc: Global, net: &Network, routing: &Routing)
    requires network { net.now ≡ three_nodes }
    requires routes { routing.now.routes ≡ straight_routes }
{
    for best in BEST_BLOCKS {
        assert!(rt;
            is_found(alloc, net, routing, best) == Ok(true),
            "{}",
            best.need
        );
    }
}

/// Whether the best block of the first link needs as much for every matrix, or the weights have none.
fn is_need(
    alloc: Global,
    net: &Network,
    routing: &Routing,
    weights: &[u64],
    need: Option<u128>,
) -> bool
    requires network { net.now ≡ three_nodes }
    requires routes { routing.now.routes ≡ straight_routes }
    requires count { length weights.now ≡ 4 }
    requires small { All (λ w. w ≤ 2 ^ 28) weights.now }
{
    need_of(alloc, net, routing, &DemandSet::All, weights) == Ok(need)
}

/// The greatest weight, and half of it.
const FAR: u64 = 1 << 20;

const HALF: u64 = 1 << 19;

/// Weights have these needs.
fn weights_have_these_needs(rt: &impl Abort, alloc: Global, net: &Network, routing: &Routing)
    requires network { net.now ≡ three_nodes }
    requires routes { routing.now.routes ≡ straight_routes }
{
    // Each distance is one weight, and the weights of all four links are paid for.
    assert!(rt; is_need(alloc, net, routing, &[FAR, FAR, FAR, FAR], Some(4_000_000)));
    // The link from a to b is on no least path, so half its weight leaves the distances as they are.
    assert!(rt; is_need(alloc, net, routing, &[FAR, FAR, HALF, FAR], Some(3_500_000)));
    // Doubled until the greatest is 2^20, weights need no more than before.
    assert!(rt; is_need(alloc, net, routing, &[1, 1, 0, 0], Some(2_000_000)));
    assert!(rt; is_need(alloc, net, routing, &[2, 2, 0, 0], Some(2_000_000)));
    assert!(rt; is_need(alloc, net, routing, &[FAR, FAR, 0, 0], Some(2_000_000)));
    // Without a weight above 0 there is no block.
    assert!(rt; is_need(alloc, net, routing, &[0, 0, 0, 0], None));
}

/// Best blocks and needs of the straight routes are as they were found by hand.
fn straight_routes_are_judged(rt: &impl Abort, alloc: Global, net: &Network)
    requires { net.now ≡ three_nodes }
{
    let routing = straight_routing(alloc).expect(rt, "a routing");
    all_are_found(rt, alloc, net, &routing);
    weights_have_these_needs(rt, alloc, net, &routing);
}

#[test]
fn blocks_and_needs_are_those_found_by_hand(rt: HostRuntime) {
    let net = three_nodes(rt.alloc()).expect(&rt, "a network");
    straight_routes_are_judged(&rt, rt.alloc(), &net);
}
