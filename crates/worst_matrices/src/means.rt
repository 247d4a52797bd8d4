//! Means of matrices.
ghost use Rattle.std.specs.Prelude.{◌≡◌, ℕ, IfOk, length, slice_index};
ghost use Rattle.worst_matrices.specs.Means.{AreAdded, IsAdded, weight_of};

use std::alloc::Global;
use te_model::Memory;

/// The weight of the first matrix.
const FIRST_WEIGHT: u128 = 1 << 20;

/// The greatest weight of a matrix.
const MAX_WEIGHT: u128 = 1 << 40;

/// Matrices summed by weights. Sums end at the greatest number.
#[derive(Drop)]
pub struct Sums {
    /// One number for each pair.
    pub demand: Vec<u128>,
    /// The sum of the weights.
    pub weight: u128,
    /// The deviation of the first matrix, or 0 before there is one.
    pub first: u128,
}

/// The sums of no matrices.
pub fn no_sums(alloc: Global, pairs: usize) -> Result<Sums, Memory>
    ensures count { IfOk result (λ s. length s.demand.items ≡ pairs) }
    ensures zero { IfOk result (λ s. (p : ℕ) → slice_index s.demand.items p ≡ 0) }
    ensures weight { IfOk result (λ s. s.weight ≡ 0) }
    ensures first { IfOk result (λ s. s.first ≡ 0) }
{
    let demand = vec![in alloc; 0; pairs]?;
    Ok(Sums {
        demand,
        weight: 0,
        first: 0,
    })
}

/// Adds each of the numbers by the weight.
fn add_each(sums: &mut [u128], demand: &[u128], weight: u128)
    requires { length demand.now ≡ length sums.old }
    ensures count { length sums.new ≡ length sums.old }
    ensures added { AreAdded sums.old demand.now weight sums.new }
{
    for p in 0..sums.len() {
        let more = demand[p].saturating_mul(weight);
        sums[p] = sums[p].saturating_add(more);
    }
}

/// The weight of a matrix of this deviation, which is the greater, the less it deviates.
fn weight_of(first: u128, deviation: u128) -> u128
    ensures { result ≡ weight_of first deviation }
{
    let weight = first.saturating_mul(FIRST_WEIGHT) / deviation.max(1);
    weight.max(1).min(MAX_WEIGHT)
}

/// Adds the matrix by its deviation, which is the first where there is none before.
pub fn add(sums: &mut Sums, demand: &[u128], deviation: u128)
    requires { length demand.now ≡ length sums.old.demand.items }
    ensures count { length sums.new.demand.items ≡ length sums.old.demand.items }
    ensures added { IsAdded sums.old demand.now deviation sums.new }
{
    if sums.first == 0 {
        sums.first = deviation;
    }
    let weight = weight_of(sums.first, deviation);
    add_each(&mut sums.demand, demand, weight);
    sums.weight = sums.weight.saturating_add(weight);
}
