//! Orders of the nodes and scales, drawn from the words of a generator.
ghost use Rattle.std.specs.Prelude.{◌≡◌, ◌+◌, ◌<◌, ◌≤◌, ◌^◌, IfOk, OnOk, map};
ghost use Rattle.std.specs.List.{range_with_len};
ghost use Rattle.te_model.specs.declared.limits.TheConstants.{FORMAT_2};
ghost use Rattle.random_words.specs.Words.{word_on};
ghost use Rattle.racke_mix.specs.Draws.{IsOrderBy, drawn_node, scale_by};

use rand_chacha::ChaCha8Rng;
use random_words::draw;
use std::alloc::Global;
use te_model::Memory;

/// A node with the word that was drawn for it.
#[derive(Clone, Copy, PartialEq, Eq, PartialOrd, Ord)]
pub struct DrawnNode {
    pub word: u32,
    pub node: u32,
}

// The node with the next word.
fn draw_node(rng: &mut ChaCha8Rng, node: u32) -> DrawnNode
    requires { rng.old.word_pos + 1 < 2 ^ 68 }
    ensures drawn { result ≡ record { word = word_on rng.old 0; node = node } }
    ensures state { rng.new ≡ record rng.old { word_pos = rng.old.word_pos + 1 } }
{
    let word = draw(rng);
    DrawnNode { word, node }
}

/// The nodes with the words that are drawn for them, one after the other.
fn draw_nodes(alloc: Global, rng: &mut ChaCha8Rng, nodes: usize) -> Result<Vec<DrawnNode>, Memory>
    requires few { nodes ≤ FORMAT_2.nodes }
    requires room { rng.old.word_pos + nodes < 2 ^ 68 }
    ensures drawn { IfOk result (λ v. v.items ≡ map (drawn_node rng.old) (range_with_len 0 nodes)) }
    ensures state { OnOk result (rng.new ≡ record rng.old { word_pos = rng.old.word_pos + nodes }) }
{
    let mut drawn = Vec::with_capacity(alloc, nodes)?;
    for node in 0..nodes {
        drawn.push(draw_node(rng, node as u32))?;
    }
    Ok(drawn)
}

/// The nodes without their words.
fn nodes_of(alloc: Global, drawn: &[DrawnNode]) -> Result<Vec<u32>, Memory>
    ensures { IfOk result (λ v. v.items ≡ map (λ d. d.node) drawn.now) }
{
    let nodes = drawn.iter().map(|d| d.node).collect(alloc)?;
    Ok(nodes)
}

/// The nodes in the order of the words that are drawn for them, then of their numbers.
///
/// `Memory` comes where memory is wanting.
pub fn draw_order(alloc: Global, rng: &mut ChaCha8Rng, nodes: usize) -> Result<Vec<u32>, Memory>
    requires few { nodes ≤ FORMAT_2.nodes }
    requires room { rng.old.word_pos + nodes < 2 ^ 68 }
    ensures order { IfOk result (λ v. IsOrderBy (word_on rng.old) nodes v.items) }
    ensures state { OnOk result (rng.new ≡ record rng.old { word_pos = rng.old.word_pos + nodes }) }
{
    let mut drawn = draw_nodes(alloc, rng, nodes)?;
    drawn.sort()?;
    let order = nodes_of(alloc, &drawn)?;
    Ok(order)
}

/// A scale of 16 to 31, by the next word.
pub fn draw_scale(rng: &mut ChaCha8Rng) -> u32
    requires { rng.old.word_pos + 1 < 2 ^ 68 }
    ensures scale { result ≡ scale_by (word_on rng.old 0) }
    ensures state { rng.new ≡ record rng.old { word_pos = rng.old.word_pos + 1 } }
{
    16 + draw(rng) % 16
}
