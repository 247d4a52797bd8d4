//! The pairs whose routes are measured.
ghost use Rattle.std.specs.Prelude.{◌≡◌, ◌≤◌, IfOk};
ghost use Rattle.te_model.specs.Network.{node_count};
ghost use Rattle.scheme.specs.Reach.{ArePairsOf};
ghost use Rattle.local_recovery.specs.Rates.{ArePairs};

use crate::network::NODES;
use std::alloc::{AllocError, Global};
use te_model::{Items, Network, Pair, Pairs};

/// The pairs of one of the first `sources` nodes with any other, in ascending order.
pub fn pairs_from(alloc: Global, net: &Network, sources: u32) -> Result<Pairs, AllocError>
    requires nodes { node_count net.now ≡ 64 }
    requires sources { sources ≤ 64 }
    ensures pairs { IfOk result (λ p. ArePairsOf net.now p.list) }
    ensures ascending { IfOk result (λ p. ArePairs net.now p.list) }
{
    let mut list = Vec::new(alloc);
    for place in 0..sources * NODES {
        let pair = Pair {
            src: place / NODES,
            dst: place % NODES,
        };
        if pair.src != pair.dst {
            list.push(pair)?;
        }
    }
    Ok(Pairs {
        list: Items::new(list),
    })
}
