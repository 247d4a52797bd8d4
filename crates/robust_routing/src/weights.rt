//! The weights of the links in the certificate of each link.
ghost use Rattle.std.specs.Prelude.{◌^◌, ◌<◌, ◌≤◌, IfOk, IsTrue};
ghost use Rattle.te_model.specs.Network.{is_well_formed, link_count};
ghost use Rattle.centred_steps.specs.Loads.{AreLoadsWithin};
ghost use Rattle.robust_routing.specs.Weights.{AreLinkWeights, AreWeightsOfLinks};

use centred_steps::step_weights;
use std::alloc::Global;
use te_model::{Items, Memory, Network};

/// The greatest weight at the start.
const FIRST_WEIGHT: u64 = 1 << 26;

/// The first weight of a link in the certificate of a link of the capacity `own`.
///
/// It falls with the link's capacity where that is greater, so that no link has a greater part in the sum of capacities by weights.
fn first_weight(own: u64, capacity: u64) -> u64
    ensures { (1 ≤ result) × (result ≤ 2 ^ 27) }
{
    let product = FIRST_WEIGHT.saturating_mul(own.min(capacity));
    (product / capacity.max(1)).max(1).min(FIRST_WEIGHT)
}

/// The first weights of the links in the certificate of the link.
fn first_weights_of(alloc: Global, net: &Network, link: usize) -> Result<Vec<u64>, Memory>
    requires link { link < link_count net.now }
    ensures { IfOk result (λ w. AreLinkWeights net.now w.items) }
{
    let links = net.links.as_slice();
    let own = links[link].capacity;
    let mut weights = Vec::with_capacity(alloc, links.len())?;
    for h in 0..links.len() {
        weights.push(first_weight(own, links[h].capacity))?;
    }
    Ok(weights)
}

/// The first weights of the links for each link.
pub fn first_weights(alloc: Global, net: &Network) -> Result<Vec<Items<u64>>, Memory>
    ensures { IfOk result (λ w. AreWeightsOfLinks net.now w.items) }
{
    let count = net.links.as_slice().len();
    let mut list = Vec::with_capacity(alloc, count)?;
    for link in 0..count {
        let weights = first_weights_of(alloc, net, link)?;
        list.push(Items::new(weights))?;
    }
    Ok(list)
}

/// The weights after a step by the loads.
pub fn weights_after(
    alloc: Global,
    net: &Network,
    weights: &[u64],
    loads: &[u128],
    parts: u64,
) -> Result<Vec<u64>, Memory>
    requires network { IsTrue (is_well_formed net.now) }
    requires weights { AreLinkWeights net.now weights.now }
    requires loads { AreLoadsWithin net.now loads.now }
    requires parts { (1 ≤ parts) × (parts ≤ 128) }
    ensures { IfOk result (λ w. AreLinkWeights net.now w.items) }
{
    let mut after = Vec::from_slice(alloc, weights)?;
    step_weights(net, &mut after, loads, parts);
    Ok(after)
}
