//! I3: what plus adds to the distances, minus takes back, for every matrix of the set.
ghost use Rattle.std.specs.Prelude.{◌≡◌, ℕ, ◌^◌, ◌≤◌};
ghost use Rattle.te_model.specs.declared.limits.TheConstants.{FORMAT_2};
ghost use Rattle.te_model.specs.Demand.{lower_of, upper_of};
ghost use Rattle.te_model.specs.Inequalities.{keeps_bounds};
ghost use Rattle.te_model.specs.Bounds.{HasSmallNumbers};

use te_model::{Block, DemandSet, number_at};

// What is added is taken back, pair by pair between the bounds of the set.
#[tactic(auto, using(te_model::proofs::Sizes::bound_term))]
pub fn keeps_bounds(set: &DemandSet, pairs: usize, block: &Block) -> bool
    requires pairs { pairs ≤ FORMAT_2.pairs }
    requires lower { (p : ℕ) → lower_of set.now p ≤ 2 ^ 52 }
    requires upper { (p : ℕ) → upper_of set.now p ≤ 2 ^ 52 }
    requires block { HasSmallNumbers block.now }
    ensures { result ≡ keeps_bounds set.now pairs block.now }
{
    let mut gain: u128 = 0;
    let mut loss: u128 = 0;
    for p in 0..pairs {
        let more = number_at(block.plus.as_slice(), p);
        let less = number_at(block.minus.as_slice(), p);
        gain += set.upper(p) as u128 * more as u128;
        loss += set.lower(p) as u128 * less as u128;
    }
    gain <= loss
}
