//! Series of traffic matrices.

use te_model::{Items, Matrix, Pairs};

/// A traffic matrix for each step, over the same declared pairs.
#[derive(Drop)]
pub struct Series {
    /// The declared pairs, ascending by source and destination.
    pub pairs: Pairs,
    /// One matrix for each step, with one demand for each declared pair.
    pub steps: Items<Matrix>,
}
