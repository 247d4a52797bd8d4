//! Series of matrices that are drawn, printed and read back.
ghost use Rattle.std.specs.Prelude.{IsTrue};
ghost use Rattle.te_model.specs.Network.{is_well_formed, node_count};
ghost use Rattle.traffic_matrix.specs.Limits.{IsSeries};

use std::alloc::Global;
use te_model::{Matrix, Network};
use traffic_matrix::*;

// The nodes a, b and c, with a link from a to b and one from b to c.
const NODES: &[u8] = b"source,target,capacity,cost\na,b,10,1\nb,c,10,1\n";

// The nodes a and b, with a link each way.
const TWO: &[u8] = b"source,target,capacity,cost\na,b,1,1\nb,a,1,1\n";

// Whether there are six demands, of which the first is from 1 to 10000 and the third is the same.
fn are_products(demand: &[u64]) -> bool {
    match demand {
        [first, _, third, _, _, _] => first == third && 1 <= *first && *first <= 10_000,
        _ => false,
    }
}

// Whether two series have two steps each, the same pairs, and the same demands.
fn are_same(one: &Series, other: &Series) -> bool {
    match (one.steps.as_slice(), other.steps.as_slice()) {
        ([first, second], [other_first, other_second]) => {
            let firsts = first.demand == other_first.demand;
            let seconds = second.demand == other_second.demand;
            firsts & seconds & (one.pairs.list == other.pairs.list)
        }
        _ => false,
    }
}

// Whether a file of a network is read as this series.
fn is_text_of(
    alloc: Global,
    net: &Network,
    text: &[u8],
    series: &Series,
) -> Result<bool, MatrixFault>
    requires { IsTrue (is_well_formed net.now) }
{
    let again = read(alloc, net, text)?;
    Ok(are_same(&again, series))
}

// Whether the file of a series is read as the same series.
fn is_read_back(alloc: Global, net: &Network, series: &Series) -> Result<bool, MatrixFault>
    requires network { IsTrue (is_well_formed net.now) }
    requires series { IsSeries (node_count net.now) series.now }
{
    let text = print(alloc, net, series)?;
    is_text_of(alloc, net, text.as_slice(), series)
}

// Whether there are two steps, with such demands in the first.
fn are_drawn(steps: &[Matrix]) -> bool {
    match steps {
        [first, _] => are_products(first.demand.as_slice()),
        _ => false,
    }
}

// Whether each of two nodes sends to the other, the same in both directions.
fn is_exchange(demand: &[u64]) -> bool {
    match demand {
        [there, back] => there == back && 1 <= *there && *there <= 10_000,
        _ => false,
    }
}

// Whether there are two steps, and in each an exchange.
fn are_exchanges(steps: &[Matrix]) -> bool {
    match steps {
        [first, second] => {
            is_exchange(first.demand.as_slice()) & is_exchange(second.demand.as_slice())
        }
        _ => false,
    }
}

// Whether a series that is drawn for two nodes has such steps, and is read back.
fn is_drawn_for_two(alloc: Global, net: &Network) -> Result<bool, MatrixFault>
    requires { IsTrue (is_well_formed net.now) }
{
    let series = gravity(alloc, net, 7, 2)?;
    let drawn = are_exchanges(series.steps.as_slice());
    Ok(drawn & (is_read_back(alloc, net, &series) == Ok(true)))
}

// Whether a series that is drawn over two steps has all six pairs and such demands, and is read back.
fn is_drawn(alloc: Global, net: &Network) -> Result<bool, MatrixFault>
    requires { IsTrue (is_well_formed net.now) }
{
    let series = gravity(alloc, net, 7, 2)?;
    let pairs = series.pairs.list.as_slice().len() == 6;
    let drawn = are_drawn(series.steps.as_slice());
    Ok(pairs & drawn & (is_read_back(alloc, net, &series) == Ok(true)))
}

#[test]
fn a_series_is_drawn_and_read_back(rt: HostRuntime) {
    let alloc = rt.alloc();
    let net = topology::read(alloc, NODES).expect(&rt, "three nodes");
    assert!(rt; is_drawn(alloc, &net) == Ok(true));
}

#[test]
fn two_nodes_send_each_other_the_same(rt: HostRuntime) {
    let alloc = rt.alloc();
    let net = topology::read(alloc, TWO).expect(&rt, "two nodes");
    assert!(rt; is_drawn_for_two(alloc, &net) == Ok(true));
}
