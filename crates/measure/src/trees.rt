//! The mix of decomposition trees of the network, and all pairs over it.
ghost use Rattle.std.specs.Prelude.{◌≡◌, ◌≤◌, IsTrue};
ghost use Rattle.te_model.specs.Network.{is_well_formed, node_count};
ghost use Rattle.scheme.specs.Reach.{ArePairsOf};

use crate::network::NODES;
use crate::pairs::pairs_from;
use racke_mix::Racke;
use routing::Routing;
use scheme::{Oblivious, Scheme, SchemeFault};
use std::alloc::Global;
use te_model::{Network, Pairs};

fn count_paths(routing: &Routing) -> u64 {
    let mut count = 0u64;
    for route in routing.routes.as_slice() {
        count = count.wrapping_add(route.paths.as_slice().len() as u64);
    }
    count
}

// How many paths the pairs have over the mix of the trees.
fn paths_over_mix(
    alloc: Global,
    trees: &Racke,
    net: &Network,
    pairs: &Pairs,
) -> Result<u64, SchemeFault>
    requires network { IsTrue (is_well_formed net.now) }
    requires pairs { ArePairsOf net.now pairs.now.list }
{
    let plan = trees.prepare(alloc, net, pairs)?;
    Ok(count_paths(trees.fixed(&plan)))
}

/// How many paths all pairs have over a mix of so many trees.
pub fn paths_over_trees(alloc: Global, net: &Network, trees: u32) -> Result<u64, SchemeFault>
    requires network { IsTrue (is_well_formed net.now) }
    requires nodes { node_count net.now ≡ 64 }
    requires some { 1 ≤ trees }
    requires few { trees ≤ 16 }
{
    let pairs = pairs_from(alloc, net, NODES)?;
    paths_over_mix(alloc, &Racke { trees, seed: 7 }, net, &pairs)
}
