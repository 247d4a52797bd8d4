//! Series that are drawn from a seed, by the gravity model.

ghost use Rattle.std.specs.Prelude.{◌≡◌, ◌<◌, ◌≤◌, ◌+◌, ◌*◌, ◌^◌, All, IfOk, OnOk, IsTrue, map, length, slice_index};
ghost use Rattle.std.specs.List.{range_with_len};
ghost use Rattle.te_model.specs.Network.{is_well_formed, node_count};
ghost use Rattle.te_model.specs.declared.limits.TheConstants.{FORMAT_2};
ghost use Rattle.te_model.specs.Pairs.{IsNodePair};
ghost use Rattle.random_words.specs.Words.{generator};
ghost use Rattle.traffic_matrix.specs.Gravity.{every_pair, size_at, products, gravity_of};
ghost use Rattle.traffic_matrix.specs.Limits.{IsSeries};

use crate::series::Series;
use rand_chacha::ChaCha8Rng;
use random_words::{draw, generator_of};
use std::alloc::Global;
use te_model::{Items, Matrix, Memory, Network, Pair, Pairs};

const PURPOSE: u8 = 1;

/// Draws a series of matrices of a network from a seed, by the gravity model: in each step each node has a size of 1 to 100,
/// and the demand of a pair is the product of the sizes of its nodes. Every pair of two nodes is declared.
pub fn gravity(alloc: Global, net: &Network, seed: u64, steps: u32) -> Result<Series, Memory>
    requires network { IsTrue (is_well_formed net.now) }
    requires some { 1 ≤ steps }
    requires few { steps ≤ 1024 }
    ensures series { IfOk result (λ s. s ≡ gravity_of (node_count net.now) seed steps) }
    ensures in_range { IfOk result (IsSeries (node_count net.now)) }
{
    let nodes = net.names.as_slice().len();
    let pairs = every_pair(alloc, nodes)?;
    let mut rng = matrix_words(seed);
    let mut matrices = Vec::new(alloc);
    for _step in 0..steps {
        let sizes = draw_sizes(alloc, &mut rng, nodes)?;
        matrices.push(products(alloc, pairs.as_slice(), sizes.as_slice())?)?;
    }
    Ok(Series {
        pairs: Pairs {
            list: Items::new(pairs),
        },
        steps: Items::new(matrices),
    })
}

// The words of the seed for matrices, of which none was taken.
fn matrix_words(seed: u64) -> ChaCha8Rng
    ensures { result ≡ generator seed 1 0 }
{
    generator_of(seed, PURPOSE)
}

// All pairs of two nodes, ascending.
fn every_pair(alloc: Global, nodes: usize) -> Result<Vec<Pair>, Memory>
    requires { nodes ≤ FORMAT_2.nodes }
    ensures pairs { IfOk result (λ v. v.items ≡ every_pair nodes) }
    ensures within { IfOk result (λ v. All (IsNodePair nodes) v.items) }
{
    let mut pairs = Vec::new(alloc);
    for place in 0..nodes * nodes {
        let pair = Pair {
            src: (place / nodes) as u32,
            dst: (place % nodes) as u32,
        };
        if pair.src != pair.dst {
            pairs.push(pair)?;
        }
    }
    Ok(pairs)
}

// The sizes of the nodes in a step.
fn draw_sizes(alloc: Global, rng: &mut ChaCha8Rng, nodes: usize) -> Result<Vec<u64>, Memory>
    requires { rng.old.word_pos + nodes < 2 ^ 68 }
    ensures sizes { IfOk result (λ v. v.items ≡ map (size_at rng.old) (range_with_len 0 nodes)) }
    ensures small { IfOk result (λ v. All (λ s. s ≤ 100) v.items) }
    ensures state { OnOk result (rng.new ≡ record rng.old { word_pos = rng.old.word_pos + nodes }) }
{
    let mut sizes = Vec::new(alloc);
    for _node in 0..nodes {
        sizes.push(1 + u64::from(draw(rng) % 100))?;
    }
    Ok(sizes)
}

// The product of the sizes of each pair.
fn products(alloc: Global, pairs: &[Pair], sizes: &[u64]) -> Result<Matrix, Memory>
    requires pairs { All (IsNodePair (length sizes.now)) pairs.now }
    requires small { All (λ s. s ≤ 100) sizes.now }
    ensures { IfOk result (λ m. m.demand ≡ products pairs.now sizes.now) }
{
    let mut demand = Vec::new(alloc);
    for pair in pairs {
        demand.push(sizes[pair.src as usize] * sizes[pair.dst as usize])?;
    }
    Ok(Matrix {
        demand: Items::new(demand),
    })
}
