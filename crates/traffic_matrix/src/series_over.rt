//! A series over other pairs and steps than its own.
ghost use Rattle.std.specs.Prelude.{◌≡◌, ℕ, All, Bool, IfOk, drop, filter, length, map};
ghost use Rattle.te_model.specs.declared.route.Pair.{Pair};
ghost use Rattle.te_model.specs.Pairs.{AscendPairs, IsPairAmong};
ghost use Rattle.traffic_matrix.specs.Limits.{IsSeries};
ghost use Rattle.traffic_matrix.specs.Outside.{AreAmong};
ghost use Rattle.traffic_matrix.specs.Traffic.{demand_for, has_pair, matrix_over, series_over, with_pairs};
ghost use Rattle.traffic_matrix.specs.Pairs.{begins_with};

use crate::series::Series;
use std::alloc::Global;
use te_model::{Items, Matrix, Memory, Pair, Pairs, number_at};

// Whether the pair stands at this place of the list.
fn stands_at(pairs: &[Pair], place: usize, pair: Pair) -> bool
    ensures { result ≡ begins_with (drop place pairs.now) pair }
{
    place < pairs.len() && pairs[place].src == pair.src && pairs[place].dst == pair.dst
}

// The demands of these pairs by those of the own pairs, which stand among them in order: 0 of the others.
fn demands_over(
    alloc: Global,
    pairs: &[Pair],
    own: &[Pair],
    demand: &[u64],
) -> Result<Vec<u64>, Memory>
    requires own { own.now ≡ filter (has_pair own.now) pairs.now }
    requires ascending { AscendPairs pairs.now }
    ensures { IfOk result (λ v. v.items ≡ map (demand_for own.now demand.now) pairs.now) }
{
    let mut next = 0;
    let mut list = Vec::with_capacity(alloc, pairs.len())?;
    for pair in pairs {
        if stands_at(own, next, *pair) {
            list.push(number_at(demand, next))?;
            next += 1;
        } else {
            list.push(0)?;
        }
    }
    Ok(list)
}

// The matrix of a step over these pairs, with no demand where the series has no such step.
fn matrix_over(
    alloc: Global,
    pairs: &[Pair],
    series: &Series,
    step: usize,
) -> Result<Matrix, Memory>
    requires own { series.now.pairs.list ≡ filter (has_pair series.now.pairs.list) pairs.now }
    requires ascending { AscendPairs pairs.now }
    ensures { IfOk result (λ m. m ≡ matrix_over pairs.now series.now step) }
{
    let own = series.pairs.list.as_slice();
    let steps = series.steps.as_slice();
    let demand = if step < steps.len() {
        demands_over(alloc, pairs, own, steps[step].demand.as_slice())?
    } else {
        vec![in alloc; 0; pairs.len()]?
    };
    Ok(Matrix {
        demand: Items::new(demand),
    })
}

/// The series over these pairs, among which its own stand in order, in so many steps. `Memory` comes where memory is wanting.
pub fn series_over(
    alloc: Global,
    pairs: &[Pair],
    count: usize,
    series: &Series,
) -> Result<Series, Memory>
    requires own { series.now.pairs.list ≡ filter (has_pair series.now.pairs.list) pairs.now }
    requires ascending { AscendPairs pairs.now }
    ensures { IfOk result (λ s. s ≡ series_over pairs.now count series.now) }
{
    let mut steps = Vec::with_capacity(alloc, count)?;
    for step in 0..count {
        steps.push(matrix_over(alloc, pairs, series, step)?)?;
    }
    Ok(Series {
        pairs: Pairs {
            list: Items::new(Vec::from_slice(alloc, pairs)?),
        },
        steps: Items::new(steps),
    })
}

/// The same series over these pairs, among which its own stand: a pair that it does not have demands nothing. The pairs ascend, as its
/// own do. `Memory` comes where memory is wanting.
pub fn with_pairs(alloc: Global, pairs: &[Pair], series: &Series) -> Result<Series, Memory>
    requires series { (n : ℕ) × IsSeries n series.now × All (IsPairAmong n) pairs.now }
    requires among { AreAmong series.now.pairs.list pairs.now }
    requires ascending { AscendPairs pairs.now }
    ensures series { IfOk result (λ s. s ≡ with_pairs pairs.now series.now) }
    ensures in_range { (n : ℕ) → IsSeries n series.now → All (IsPairAmong n) pairs.now → IfOk result (IsSeries n) }
{
    let count = series.steps.as_slice().len();
    series_over(alloc, pairs, count, series)
}
