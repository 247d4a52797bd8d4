//! What a way sends in the worst of all matrices.
ghost use Rattle.std.specs.Prelude.{◌*◌, ◌-◌, ◌/◌, ◌^◌, ◌≤◌, ◌≡◌, max};
ghost use Rattle.kept_ways.specs.Amounts.{IsNearness};

/// How much a capacity counts for in what a pair sends.
const WHOLE: u128 = 1 << 10;

/// By how much a share is worth more than so near a part of the most, which is what the length of its way is worth.
#[tactic(auto, using(crate::proofs::Amounts::near_worth_fits, crate::proofs::Amounts::near_most_fits))]
pub fn nearness(worth: u128, most: u128, near: u128) -> u128
    requires worth { worth ≤ 2 ^ 56 }
    requires most { most ≤ 2 ^ 71 }
    requires near { IsNearness near }
    ensures small { result ≤ 2 ^ 64 }
    ensures exact { result ≡ worth * near - most * (near - 1) }
{
    (worth * near).saturating_sub(most * (near - 1))
}

/// The amount that a way sends: its capacity where no pair is dearer, and less the less dear its pair is by it.
#[tactic(auto, using(crate::proofs::Amounts::part_fits))]
pub fn amount_of(capacity: u64, above: u128, most: u128) -> u128
    requires capacity { capacity ≤ 2 ^ 32 }
    requires above { above ≤ 2 ^ 64 }
    ensures { result ≡ capacity * above * 1024 / max 1 most }
{
    u128::from(capacity) * above * WHOLE / most.max(1)
}
