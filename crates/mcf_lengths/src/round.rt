//! One round: lengths, and the least path of each pair by them.
ghost use Rattle.std.specs.Prelude.{◌≡◌, ◌≤◌, All, IfOk, IsTrue, length};
ghost use Rattle.te_model.specs.Network.{is_well_formed, link_count};
ghost use Rattle.scheme.specs.Reach.{AllReached, ArePairsOf};
ghost use Rattle.mcf_lengths.specs.Rounds.{IsFlowRound};
ghost use Rattle.mcf_lengths.specs.Ways.{MarksDestinations};

use crate::paths::least_paths;
use multiplicative_lengths::lengths_of;
use std::alloc::Global;
use te_model::{Items, Memory, Network, Pairs, Path};

/// How many rounds there are.
pub const ROUNDS: u32 = 28;

/// A round: the lengths of the links, and the path that each pair takes.
#[derive(Drop)]
pub struct FlowRound {
    /// One for each link, 1 to 2^28.
    pub lengths: Items<u64>,
    /// One for each pair: its least path by (sum of lengths, list of link numbers).
    pub paths: Items<Path>,
}

/// The round of the multipliers.
///
/// `multipliers` has one number for each link, and `wanted` marks the destinations of the pairs.
/// `Memory` comes where memory is wanting.
pub fn make_round(
    alloc: Global,
    net: &Network,
    pairs: &Pairs,
    wanted: &[bool],
    multipliers: &[u64],
) -> Result<FlowRound, Memory>
    requires network { IsTrue (is_well_formed net.now) }
    requires pairs { ArePairsOf net.now pairs.now.list }
    requires reached { AllReached net.now pairs.now.list }
    requires wanted { MarksDestinations net.now pairs.now.list wanted.now }
    requires count { length multipliers.now ≡ link_count net.now }
    requires some { All (λ m. 1 ≤ m) multipliers.now }
    ensures { IfOk result (IsFlowRound net.now pairs.now.list multipliers.now) }
{
    let lengths = lengths_of(alloc, net, multipliers)?;
    let paths = least_paths(alloc, net, pairs, wanted, &lengths)?;
    Ok(FlowRound {
        lengths: Items::new(lengths),
        paths: Items::new(paths),
    })
}
