//! Means of matrices, moved into the set.
ghost use Rattle.std.specs.Prelude.{◌≡◌, ℕ, ◌^◌, ◌<◌, ◌≤◌, IfOk, IfSome, None, min, max, true, false, ◌*◌, ◌/◌, length, slice_index};
ghost use Rattle.te_model.specs.Counting.{greatest_below};
ghost use Rattle.te_model.specs.Pairs.{AreDemands};
ghost use Rattle.worst_matrices.specs.Members.{is_between, AreBetween, IsOfSet, IsScaledMember, IsSmallScale};
ghost use Rattle.worst_matrices.specs.Members.{greatest_upper, numerator_by, denominator_by, numerator_of, denominator_of};
ghost use Rattle.worst_matrices.specs.Members.{nearest_demand, AreDemandsOf, AreNearest, ArePartsOfGreatest, IsNotBetween, IsNotOfSet, HasNoMatrix, IsMeanOf};
ghost use Rattle.worst_matrices.specs.Means.{in_128_bits};
ghost use Rattle.worst_matrices.specs.Usage.{HasSmallBounds};

use crate::means::Sums;
use std::alloc::Global;
use te_model::{DemandSet, Items, Matrix, Memory, ceil_div};

/// The greatest demand of a witness.
const MOST: u64 = 1 << 32;

/// The scale of a matrix: `y` times each demand lies between `x` times the bounds.
#[derive(Clone, Copy)]
pub struct Scale {
    pub x: u64,
    pub y: u64,
}

/// A matrix of a set, and the scale that shows that it is one.
#[derive(Drop)]
pub struct ScaledMatrix {
    pub demand: Matrix,
    pub x: u64,
    pub y: u64,
}

/// The greatest upper bound of a pair.
fn greatest_upper(set: &DemandSet, pairs: usize) -> u64
    requires { HasSmallBounds set.now }
    ensures small { result ≤ 2 ^ 52 }
    ensures greatest { result ≡ greatest_upper set.now pairs }
{
    let mut most = 0;
    for p in 0..pairs {
        most = most.max(set.upper(p));
    }
    most
}

/// The scale at which the greatest of the bounds comes nearest to the greatest demand.
fn scale_by(most: u64) -> Scale
    requires { most ≤ 2 ^ 52 }
    ensures small { IsSmallScale result.x result.y }
    ensures numerator { result.x ≡ numerator_by most }
    ensures denominator { result.y ≡ denominator_by most }
{
    if most <= MOST {
        Scale {
            x: MOST / most.max(1),
            y: 1,
        }
    } else {
        Scale {
            x: 1,
            y: most / MOST + 1,
        }
    }
}

/// The scale of a matrix of the set: 1 for every matrix.
fn scale_of(set: &DemandSet, pairs: usize) -> Scale
    requires { HasSmallBounds set.now }
    ensures small { IsSmallScale result.x result.y }
    ensures numerator { result.x ≡ numerator_of set.now pairs }
    ensures denominator { result.y ≡ denominator_of set.now pairs }
{
    match set {
        DemandSet::All => Scale { x: 1, y: 1 },
        DemandSet::Margin { .. } => scale_by(greatest_upper(set, pairs)),
        DemandSet::Box { .. } => scale_by(greatest_upper(set, pairs)),
    }
}

/// The greatest of the numbers, at least 1.
fn greatest_of(numbers: &[u128]) -> u128
    ensures some { 1 ≤ result }
    ensures greatest { result ≡ max (greatest_below (length numbers.now) (slice_index numbers.now)) 1 }
{
    let mut most = 1;
    for number in numbers {
        most = most.max(*number);
    }
    most
}

/// The sum as a demand, where the greatest sum becomes the greatest demand.
fn demand_of(sum: u128, greatest: u128) -> u64
    requires { 1 ≤ greatest }
    ensures small { result ≤ 2 ^ 32 }
    ensures part { result ≡ min (in_128_bits (sum * 2 ^ 32) / greatest) (2 ^ 32) }
{
    (sum.saturating_mul(u128::from(MOST)) / greatest).min(u128::from(MOST)) as u64
}

/// The demands of every matrix by the sums.
fn demands_of_all(alloc: Global, sums: &Sums) -> Result<Vec<u64>, Memory>
    ensures parts { IfOk result (λ demand. ArePartsOfGreatest sums.now.demand.items demand.items) }
    ensures small { IfOk result (λ demand. AreDemands (length sums.now.demand.items) demand.items) }
{
    let greatest = greatest_of(&sums.demand);
    let mut demand = Vec::with_capacity(alloc, sums.demand.len())?;
    for sum in &sums.demand {
        demand.push(demand_of(*sum, greatest))?;
    }
    Ok(demand)
}

/// The demand nearest to the mean of a pair between its bounds, by the scale: `sum / weight` is the mean.
fn demand_between(sum: u128, weight: u128, lower: u64, upper: u64, scale: Scale) -> u64
    requires scale { IsSmallScale scale.x scale.y }
    requires lower { lower ≤ 2 ^ 52 }
    requires upper { upper ≤ 2 ^ 52 }
    ensures small { result ≤ 2 ^ 32 }
    ensures nearest { result ≡ nearest_demand sum weight lower upper scale.x scale.y }
{
    let (x, y) = (u128::from(scale.x), u128::from(scale.y));
    let over = weight.saturating_mul(y).max(1);
    let mean = sum.saturating_mul(x).saturating_add(over / 2) / over;
    let least = ceil_div(x.saturating_mul(u128::from(lower)), y);
    let most = x.saturating_mul(u128::from(upper)) / y;
    mean.max(least).min(most).min(u128::from(MOST)) as u64
}

/// The demands between the bounds of the set that are nearest to the mean of the sums.
fn demands_between(
    alloc: Global,
    set: &DemandSet,
    sums: &Sums,
    scale: Scale,
) -> Result<Vec<u64>, Memory>
    requires set { HasSmallBounds set.now }
    requires scale { IsSmallScale scale.x scale.y }
    ensures nearest { IfOk result (λ demand. AreNearest set.now sums.now scale.x scale.y demand.items) }
    ensures small { IfOk result (λ demand. AreDemands (length sums.now.demand.items) demand.items) }
{
    let mut demand = Vec::with_capacity(alloc, sums.demand.len())?;
    for p in 0..sums.demand.len() {
        let (lower, upper) = (set.lower(p), set.upper(p));
        demand.push(demand_between(sums.demand[p], sums.weight, lower, upper, scale))?;
    }
    Ok(demand)
}

/// The demands of the set that are nearest to the mean of the sums.
fn demands_of(alloc: Global, set: &DemandSet, sums: &Sums, scale: Scale) -> Result<Vec<u64>, Memory>
    requires set { HasSmallBounds set.now }
    requires scale { IsSmallScale scale.x scale.y }
    ensures demands { IfOk result (λ demand. AreDemandsOf set.now sums.now scale.x scale.y demand.items) }
    ensures small { IfOk result (λ demand. AreDemands (length sums.now.demand.items) demand.items) }
{
    match set {
        DemandSet::All => demands_of_all(alloc, sums),
        DemandSet::Margin { .. } => demands_between(alloc, set, sums, scale),
        DemandSet::Box { .. } => demands_between(alloc, set, sums, scale),
    }
}

/// Whether the demand of the pair lies between its bounds, by the scale.
fn is_between(set: &DemandSet, pair: usize, demand: u64, scale: Scale) -> bool
    requires { HasSmallBounds set.now }
    ensures { result ≡ is_between set.now scale.x scale.y pair demand }
{
    let least = u128::from(scale.x) * u128::from(set.lower(pair));
    let scaled = u128::from(scale.y) * u128::from(demand);
    let most = u128::from(scale.x) * u128::from(set.upper(pair));
    least <= scaled && scaled <= most
}

/// Whether each demand lies between its bounds.
fn are_between(set: &DemandSet, demand: &[u64], scale: Scale) -> bool
    requires { HasSmallBounds set.now }
    ensures yes { result ≡ true → AreBetween set.now scale.x scale.y demand.now }
    ensures no { result ≡ false → IsNotBetween set.now scale.x scale.y demand.now }
{
    for p in 0..demand.len() {
        if !is_between(set, p, demand[p], scale) {
            return false;
        }
    }
    true
}

/// Whether the matrix is of the set.
fn is_of_set(set: &DemandSet, demand: &[u64], scale: Scale) -> bool
    requires { HasSmallBounds set.now }
    ensures yes { result ≡ true → IsOfSet set.now scale.x scale.y demand.now }
    ensures no { result ≡ false → IsNotOfSet set.now scale.x scale.y demand.now }
{
    match set {
        DemandSet::All => true,
        DemandSet::Margin { .. } => are_between(set, demand, scale),
        DemandSet::Box { .. } => are_between(set, demand, scale),
    }
}

/// The matrix of the set that is nearest to the mean of the sums, where there is one of whole numbers: between bounds that are close
/// and great there may be none.
pub fn member_near(
    alloc: Global,
    set: &DemandSet,
    sums: &Sums,
) -> Result<Option<ScaledMatrix>, Memory>
    requires { HasSmallBounds set.now }
    ensures member { IfOk result (λ found. IfSome found (IsScaledMember set.now (length sums.now.demand.items))) }
    ensures mean { IfOk result (λ found. IfSome found (IsMeanOf set.now sums.now)) }
    ensures none { IfOk result (λ found. found ≡ None → HasNoMatrix set.now (length sums.now.demand.items)) }
{
    let scale = scale_of(set, sums.demand.len());
    let demand = demands_of(alloc, set, sums, scale)?;
    if is_of_set(set, &demand, scale) {
        Ok(Some(ScaledMatrix {
            demand: Matrix {
                demand: Items::new(demand),
            },
            x: scale.x,
            y: scale.y,
        }))
    } else {
        Ok(None)
    }
}
