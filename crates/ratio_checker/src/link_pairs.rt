//! The pairs that have a share on a link.
ghost use Rattle.std.specs.Prelude.{◌≡◌, ◌==◌, ℕ, ◌+◌, ◌<◌, List, [], length, IfOk, OnOk};
ghost use Rattle.te_model.specs.declared.route.PairRoutes.{PairRoutes};
ghost use Rattle.te_model.specs.Counting.{first_below, unless};
ghost use Rattle.te_model.specs.Inequalities.{failure_at};
ghost use Rattle.te_model.specs.Path.{share};
ghost use Rattle.ratio_checker.specs.Shares.{AreSharesOn, HasPairsBelow, IsPlaceOf};

use std::alloc::Global;
use te_model::{InequalityFault, Memory};

/// The numbers of the pairs that have a share on a link, ascending, and the share of each in millionths. They stand in two lists, since
/// a list of both would take eight bytes for each and not six.
#[derive(Drop)]
pub struct LinkPairs {
    pairs: Vec<u16>,
    shares: Vec<u32>,
}

impl LinkPairs {
    /// No pair, with room for so many. `Memory` comes where memory is wanting.
    pub fn with_room(alloc: Global, count: usize) -> Result<LinkPairs, Memory>
        ensures { IfOk result (λ of. (of.pairs.items ≡ []) × (of.shares.items ≡ [])) }
    {
        Ok(LinkPairs {
            pairs: Vec::with_capacity(alloc, count)?,
            shares: Vec::with_capacity(alloc, count)?,
        })
    }

    /// Adds the next pair and its share in millionths, if it has one. `Memory` comes where memory is wanting.
    pub fn add(&mut self, pair: usize, amount: u64) -> Result<(), Memory>
        requires pair { pair < 65536 }
        requires small { amount < 4294967296 }
        ensures { (routes : List PairRoutes) (e : ℕ) → HasPairsBelow routes e pair self.old → amount ≡ share routes pair e →
            OnOk result (HasPairsBelow routes e (pair + 1) self.new) }
    {
        if amount != 0 {
            self.pairs.push(pair as u16)?;
            self.shares.push(amount as u32)?;
        }
        Ok(())
    }

    /// The share of the pair, and the place of the next pair, where `place` is its own.
    pub fn share_at(&self, place: usize, pair: usize) -> (u64, usize)
        requires shares { (routes : List PairRoutes) × (e : ℕ) × AreSharesOn routes e self.now }
        requires place { IsPlaceOf self.now.pairs.items place pair }
        ensures next { IsPlaceOf self.now.pairs.items result.1 (pair + 1) }
        ensures share { (routes : List PairRoutes) (e : ℕ) → AreSharesOn routes e self.now → pair < length routes → result.0 ≡ share routes pair e }
    {
        if place < self.pairs.len() && self.pairs[place] as usize == pair {
            (self.shares[place] as u64, place + 1)
        } else {
            (0, place)
        }
    }

    /// Where I2 fails first of the link, if it has no block: at the first of the pairs.
    pub fn first_share(&self) -> Option<InequalityFault>
        ensures { (routes : List PairRoutes) (e : ℕ) → AreSharesOn routes e self.now →
            result ≡ first_below (length routes) (λ p. unless (share routes p e == 0) (failure_at 2 p)) }
    {
        match self.pairs.first() {
            Some(pair) => Some(InequalityFault {
                number: 2,
                place: *pair as u64,
            }),
            None => None,
        }
    }
}
