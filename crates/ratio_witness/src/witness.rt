//! Witnesses against smaller ratios.
ghost use Rattle.std.specs.Prelude.{◌≡◌};

use te_model::{Items, Matrix, PathShare, number_at};

/// A matrix of a certificate's set, and a rival routing of it.
#[derive(Drop)]
pub struct Witness {
    /// What is shown, in millionths: no number below it is an oblivious ratio of the certificate's routing for its set.
    pub bound: u64,
    /// The bounds of the set, times `x / y`, hold the matrix.
    pub x: u64,
    /// The denominator of that factor.
    pub y: u64,
    /// The matrix: one demand for each declared pair.
    pub demand: Matrix,
    /// The rival's paths of each declared pair, with their weights in millionths of the demand.
    pub rival: Items<Items<PathShare>>,
}

impl Witness {
    ghost use Rattle.ratio_witness.specs.Rules.{demand_of, rival_paths};

    /// The demand of the pair, or 0 past the end.
    pub(crate) fn demand_of(&self, pair: usize) -> u64
        ensures { result ≡ demand_of self.now pair }
    {
        number_at(self.demand.demand.as_slice(), pair)
    }

    /// The rival's paths of the pair, or none past the end.
    pub(crate) fn rival_paths(&self, pair: usize) -> &[PathShare]
        ensures { result.now ≡ rival_paths self.now pair }
    {
        let rival = self.rival.as_slice();
        if pair < rival.len() {
            rival[pair].as_slice()
        } else {
            &[]
        }
    }
}
