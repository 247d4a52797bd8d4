//! What the pairs put on the links where each goes over a least way.
ghost use Rattle.std.specs.Prelude.{◌≡◌, ◌^◌, IsTrue, OnOk, length};
ghost use Rattle.te_model.specs.Network.{is_well_formed, link_count};
ghost use Rattle.routing.specs.Routes.{AreDemands};
ghost use Rattle.shortest_path.specs.declared.rows.Direction.TheVariants.{Forward};
ghost use Rattle.shortest_path.specs.Rows.{IsSearchGraph};
ghost use Rattle.scheme.specs.Reach.{ArePairsOf};
ghost use Rattle.centred_steps.specs.Loads.{AreLoadsWithin};
ghost use Rattle.centred_steps.specs.Weights.{AreWeightsUpTo};
ghost use Rattle.mcf_lengths.specs.Trees.{AreWayLoads};

use centred_steps::{add_load_along, clear_loads, last_links};
use shortest_path::Searches;
use std::alloc::Global;
use te_model::{Matrix, Memory, Network, Pairs};

/// Writes the loads where the demand of each pair goes over a least way by the lengths. One search serves all pairs of a source that
/// follow each other. The searches are along links in the network.
///
/// `lengths` and `loads` have one number for each link, and `matrix` has one demand for each pair. `Memory` comes where memory is
/// wanting.
pub fn load_least_ways(
    alloc: Global,
    net: &Network,
    pairs: &Pairs,
    matrix: &Matrix,
    searches: &mut Searches,
    lengths: &[u64],
    loads: &mut [u128],
) -> Result<(), Memory>
    requires network { IsTrue (is_well_formed net.now) }
    requires pairs { ArePairsOf net.now pairs.now.list }
    requires demands { AreDemands (length pairs.now.list) matrix.now.demand }
    requires along { IsSearchGraph net.now Forward searches.old }
    requires count { length lengths.now ≡ link_count net.now }
    requires lengths { AreWeightsUpTo (2 ^ 27) lengths.now }
    requires loads { AreLoadsWithin net.now loads.old }
    ensures within { AreLoadsWithin net.now loads.new }
    ensures loads { OnOk result (AreWayLoads net.now pairs.now.list matrix.now.demand (length pairs.now.list) loads.new) }
    ensures same { searches.new ≡ searches.old }
{
    let nodes = net.names.as_slice().len();
    let mut sums = vec![in alloc; None; nodes]?;
    let mut lasts = vec![in alloc; None; nodes]?;
    clear_loads(loads);
    let (list, demand) = (pairs.list.as_slice(), matrix.demand.as_slice());
    for p in 0..list.len() {
        if p == 0 || list[p].src != list[p - 1].src {
            searches.distances(net, lengths, list[p].src, &mut sums);
            last_links(net, lengths, &sums, &mut lasts);
        }
        add_load_along(net, &lasts, list[p].dst, u128::from(demand[p]), loads);
    }
    Ok(())
}
