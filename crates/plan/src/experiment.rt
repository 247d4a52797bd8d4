//! What a plan says.

use crate::recovery::Recovery;
use crate::scheme_name::SchemeName;
use te_model::{Items, Name};

/// What a plan asks for.
#[derive(Drop)]
pub struct Experiment {
    /// The name of the topology file.
    pub topology: Name,
    /// The name of the matrix file.
    pub matrices: Name,
    /// The name of the failure file, if there is one.
    pub failures: Option<Name>,
    /// The name of the file of predicted matrices, if there is one.
    pub predictions: Option<Name>,
    /// The schemes that are compared, 1 to 16, in order.
    pub schemes: Items<SchemeName>,
    /// What is done when links fail.
    pub recovery: Recovery,
    /// The oblivious scheme whose routing is published.
    pub publish: SchemeName,
    /// The margin of the published demand set as a fraction of 1 or more, or none for all demands.
    pub margin: Option<(u64, u64)>,
    /// The number of paths of `ksp`, 1 to 32.
    pub k: u32,
    /// The greatest number of paths of a pair, 1 to 32.
    pub budget: u32,
    /// The number of trees of `racke`, 1 to 16.
    pub trees: u32,
    /// The seed of what is drawn.
    pub seed: u64,
    /// Of how many seeds the best routing is published, 1 to 64: of `seed` and of those that follow it.
    pub seeds: u32,
    /// Whether the published demand set is the envelope of the matrices: each demand from its least to its greatest one over the
    /// steps. Never beside a margin.
    pub envelope: bool,
}
