//! What is counted on the network.
ghost use Rattle.std.specs.Prelude.{◌≡◌, IsTrue};
ghost use Rattle.te_model.specs.Network.{is_well_formed, node_count};

use crate::network::{NODES, network};
use crate::paths::{links_of_least_paths, paths_of_sources};
use crate::searches::{links_alone, links_together};
use crate::steps::lost_in_steps;
use crate::trees::paths_over_trees;
use scheme::SchemeFault;
use std::alloc::Global;
use te_model::{Network, well_formed};

/// The greatest number of trees.
const TREES: u32 = 16;

/// What is counted on the network.
#[derive(Clone, Copy)]
pub enum Subject {
    /// The paths of all pairs over a mix of decomposition trees.
    Trees,
    /// The paths, up to four a pair, of the pairs of the first nodes.
    Paths,
    /// The links of the least paths of these pairs.
    LeastPaths,
    /// The units that these pairs lose on full links in a step.
    Steps,
    /// The links of the least walks to the first nodes, each sought alone.
    WalksAlone,
    /// The same of walks that are sought together.
    WalksTogether,
}

/// The subject that the word names.
pub fn subject_of(word: &str) -> Option<Subject> {
    match word {
        "trees" => Some(Subject::Trees),
        "paths" => Some(Subject::Paths),
        "least" => Some(Subject::LeastPaths),
        "steps" => Some(Subject::Steps),
        "alone" => Some(Subject::WalksAlone),
        "together" => Some(Subject::WalksTogether),
        _ => None,
    }
}

// Counts once what the subject names, but for the steps.
fn count_once(alloc: Global, net: &Network, subject: Subject, size: u32) -> Result<u64, SchemeFault>
    requires network { IsTrue (is_well_formed net.now) }
    requires nodes { node_count net.now ≡ 64 }
{
    match subject {
        Subject::Trees => paths_over_trees(alloc, net, size.clamp(1, TREES)),
        Subject::Paths => paths_of_sources(alloc, net, size.min(NODES)),
        Subject::LeastPaths => links_of_least_paths(alloc, net, size.min(NODES)),
        Subject::WalksAlone => links_alone(alloc, net, size.min(NODES)),
        Subject::WalksTogether => links_together(alloc, net, size.min(NODES)),
        Subject::Steps => Ok(0),
    }
}

// Counts what the subject names in so many rounds, and gives the last count.
fn count_in_rounds(
    alloc: Global,
    net: &Network,
    subject: Subject,
    size: u32,
    rounds: u32,
) -> Result<u64, SchemeFault>
    requires network { IsTrue (is_well_formed net.now) }
    requires nodes { node_count net.now ≡ 64 }
{
    if let Subject::Steps = subject {
        return lost_in_steps(alloc, net, size.min(NODES), rounds);
    }
    let mut count = 0;
    for _ in 0..rounds {
        count = count_once(alloc, net, subject, size)?;
    }
    Ok(count)
}

/// Makes the network, and counts on it what the subject names for so many trees, first nodes or targets, in so many rounds.
/// Gives the count of the last round.
pub fn count_on_network(
    alloc: Global,
    subject: Subject,
    size: u32,
    rounds: u32,
) -> Result<u64, SchemeFault> {
    let net = network(alloc)?;
    // No law says what the network is, so what the searches require is tested.
    if net.names.as_slice().len() == 64 && well_formed(&net) {
        count_in_rounds(alloc, &net, subject, size, rounds)
    } else {
        Ok(0)
    }
}
