//! The rounds of the mix.
ghost use Rattle.std.specs.Prelude.{◌≡◌, ◌≤◌, ◌^◌, ℕ, List, All, IfOk, IsTrue, length};
ghost use Rattle.te_model.specs.Network.{is_well_formed, link_count};
ghost use Rattle.random_words.specs.Words.{generator};
ghost use Rattle.multiplicative_lengths.specs.Growth.{greatest_usage, grown_multipliers};
ghost use Rattle.racke_mix.specs.Mix.{AreTreeLoads, IsMix};

use crate::loads::loads_of;
use crate::round::{Round, draw_round};
use multiplicative_lengths::{first_multipliers, greatest_usage, grow};
use rand_chacha::ChaCha8Rng;
use random_words::generator_of;
use std::alloc::Global;
use te_model::{Memory, Network};
use tree_embed::Tree;

/// The purpose for which the words of the seed are drawn.
const PURPOSE: u8 = 0;

// The words of the seed for the trees.
fn words_of(seed: u64) -> ChaCha8Rng
    ensures { result ≡ generator seed 0 0 }
{
    generator_of(seed, PURPOSE)
}

/// The rounds of the mix, one for each tree: the lengths of each grow with the loads of those before.
///
/// `Memory` comes where memory is wanting.
pub fn mix_rounds(alloc: Global, net: &Network, trees: u32, seed: u64) -> Result<Vec<Round>, Memory>
    requires network { IsTrue (is_well_formed net.now) }
    requires few { trees ≤ 16 }
    ensures { IfOk result (λ r. IsMix net.now trees seed r.items) }
{
    let mut rng = words_of(seed);
    let mut multipliers = first_multipliers(alloc, net)?;
    let mut rounds = Vec::new(alloc);
    for _tree in 0..trees {
        let round = draw_round(alloc, net, &mut rng, &multipliers)?;
        multipliers = grow_by_tree(alloc, net, &round.tree, &multipliers)?;
        rounds.push(round)?;
    }
    Ok(rounds)
}

// The multipliers of the round after that of the tree, with whose loads they grow.
fn grow_by_tree(
    alloc: Global,
    net: &Network,
    tree: &Tree,
    multipliers: &[u64],
) -> Result<Vec<u64>, Memory>
    requires network { IsTrue (is_well_formed net.now) }
    requires own { tree.now.network ≡ net.now }
    requires count { length multipliers.now ≡ link_count net.now }
    requires moderate { All (λ m. m ≤ 2 ^ 38) multipliers.now }
    ensures { IfOk result (λ m. (loads : List ℕ) × AreTreeLoads net.now tree.now loads × (m.items ≡ grown_multipliers net.now loads (greatest_usage net.now loads) multipliers.now)) }
{
    let loads = loads_of(alloc, net, tree)?;
    let most = greatest_usage(net, &loads);
    let next = grow(alloc, net, &loads, most, multipliers)?;
    Ok(next)
}
