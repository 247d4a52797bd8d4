//! The least costs of pairs on the whole network.
ghost use Rattle.std.specs.Prelude.{◌≡◌, ◌<◌, [], None, IfOk, IsTrue, All, length, slice_index_or};
ghost use Rattle.te_model.specs.Network.{is_well_formed, node_count};
ghost use Rattle.te_model.specs.Pairs.{IsPairAmong};
ghost use Rattle.shortest_path.specs.Costs.{HasCosts, costs_of};
ghost use Rattle.shortest_path.specs.Paths.{AreDistances};
ghost use Rattle.step_detail.specs.LeastCosts.{AreDistanceRows};
ghost use Rattle.step_detail.specs.Pairs.{AreLeastCosts};

use shortest_path::{costs, distances};
use std::alloc::Global;
use te_model::{Items, Memory, Network, Pair};

/// The least sums of costs from the node to each node.
fn distances_from(
    alloc: Global,
    net: &Network,
    costs: &[u64],
    node: u32,
) -> Result<Items<Option<u64>>, Memory>
    requires network { IsTrue (is_well_formed net.now) }
    requires costs { HasCosts net.now costs.now }
    requires node { node < node_count net.now }
    ensures { IfOk result (AreDistances net.now (costs_of net.now) node) }
{
    let distances = distances(alloc, net, costs, node)?;
    Ok(Items::new(distances))
}

/// For each node the least sums of costs to each node.
fn distance_rows(alloc: Global, net: &Network) -> Result<Vec<Items<Option<u64>>>, Memory>
    requires { IsTrue (is_well_formed net.now) }
    ensures { IfOk result (λ rows. AreDistanceRows net.now rows.items) }
{
    let costs = costs(alloc, net)?;
    let mut rows = Vec::new(alloc);
    for node in 0..net.names.as_slice().len() {
        rows.push(distances_from(alloc, net, &costs, node as u32)?)?;
    }
    Ok(rows)
}

/// The least sum of costs for the pair.
fn least_cost(rows: &[Items<Option<u64>>], pair: Pair) -> Option<u64>
    requires source { pair.src < length rows.now }
    requires target { pair.dst < length (slice_index_or rows.now pair.src []) }
    ensures { result ≡ slice_index_or (slice_index_or rows.now pair.src []) pair.dst None }
{
    rows[pair.src as usize].as_slice()[pair.dst as usize]
}

/// For each pair the least sum of costs of links that lead from its source to its destination, or none where no links do.
///
/// `Memory` comes where memory is wanting.
pub fn least_costs(alloc: Global, net: &Network, pairs: &[Pair]) -> Result<Vec<Option<u64>>, Memory>
    requires network { IsTrue (is_well_formed net.now) }
    requires pairs { All (IsPairAmong (node_count net.now)) pairs.now }
    ensures { IfOk result (λ least. AreLeastCosts net.now pairs.now least.items) }
{
    let distances = distance_rows(alloc, net)?;
    let rows = distances.as_slice();
    let mut least = Vec::new(alloc);
    for p in 0..pairs.len() {
        least.push(least_cost(rows, pairs[p]))?;
    }
    Ok(least)
}
