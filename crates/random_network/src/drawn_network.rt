//! The network that a seed draws.
ghost use Rattle.std.specs.Prelude.{◌≡◌, ◌≤◌, IfOk, IsTrue};
ghost use Rattle.te_model.specs.Network.{is_well_formed, link_count};
ghost use Rattle.random_words.specs.Words.{generator};
ghost use Rattle.random_network.specs.Drawn.{IsConnected, network_of};

use crate::links::{add_chords, add_ring};
use crate::names::node_names;
use rand_chacha::ChaCha8Rng;
use random_words::generator_of;
use std::alloc::Global;
use te_model::{Items, Memory, Network};

const NETWORK_PURPOSE: u8 = 2;

/// The network of 2 to 64 nodes that the words of the seed for the purpose 2 draw, taken in order.
///
/// Each node has links to the next one and back, in a ring. With four nodes or more, each node of the first half also has links to
/// one that is not beside it, and back. The two links between two nodes have one capacity, a thousand to ten thousand, and
/// one cost, 1 to 10. The only error is `Memory`, where memory is wanting.
pub fn network(alloc: Global, nodes: u32, seed: u64) -> Result<Network, Memory>
    requires some { 2 ≤ nodes }
    requires few { nodes ≤ 64 }
    ensures drawn { IfOk result (λ net. net ≡ network_of nodes seed) }
    ensures well_formed { IfOk result (λ net. IsTrue (is_well_formed net)) }
    ensures links { IfOk result (λ net. 1 ≤ link_count net) }
    ensures connected { IfOk result IsConnected }
{
    let names = node_names(alloc, nodes)?;
    let mut rng = network_words(seed);
    let mut links = Vec::new(alloc);
    add_ring(&mut rng, &mut links, nodes)?;
    add_chords(&mut rng, &mut links, nodes)?;
    Ok(Network {
        names: Items::new(names),
        links: Items::new(links),
    })
}

// The words of the seed for networks, of which none was taken.
fn network_words(seed: u64) -> ChaCha8Rng
    ensures { result ≡ generator seed 2 0 }
{
    generator_of(seed, NETWORK_PURPOSE)
}
