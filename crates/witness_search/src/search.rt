//! The search of the best attempt where the set is every matrix: pairs alone by falling limits.
ghost use Rattle.std.specs.Prelude.{◌≡◌, ◌&&◌, ℕ, ◌<◌, ◌≤◌, IfOk, IfNone, IfSome, length, nat_lt, slice_index, slice_set};
ghost use Rattle.std.specs.List.{IsFirstBest};
ghost use Rattle.te_model.specs.Validity.{IsValidHead};
ghost use Rattle.witness_search.specs.Attempts.{AreLimits, IsAttempt, IsBestAttempt, IsBetter, RoutesBy, pairs_of};
ghost use Rattle.witness_search.specs.Candidates.{IsUpToAt, alone, comes_before};

use crate::attempt::{Attempt, attempt_of, better_of, comes_before};
use crate::candidates::{alone, direct_capacities};
use crate::limits::limit_of;
use scheme::Scheme;
use std::alloc::Global;
use te_model::{DemandSet, Head, Memory};

// What no rival of each pair alone can pass.
fn limits_of_pairs(alloc: Global, head: &Head) -> Result<Vec<u128>, Memory>
    requires { IsValidHead head.now }
    ensures { IfOk result (λ limits. AreLimits head.now limits.items) }
{
    let count = head.routes.as_slice().len();
    let mut limits = Vec::with_capacity(alloc, count)?;
    for p in 0..count {
        limits.push(limit_of(head, p))?;
    }
    Ok(limits)
}

// The place of the first of the greatest numbers.
fn greatest_place(numbers: &[u128]) -> usize
    requires { 0 < length numbers.now }
    ensures { IsFirstBest (λ x y. nat_lt y x) numbers.now (length numbers.now) result }
{
    let mut greatest = 0;
    for k in 1..numbers.len() {
        if numbers[greatest] < numbers[k] {
            greatest = k;
        }
    }
    greatest
}

// Whether a rival of the pair with this limit can come before the best: its limit is above 0 and does.
fn can_come_before(pair: usize, limit: u128, best: &Attempt) -> bool
    ensures { result ≡ (nat_lt 0 limit && comes_before pair best.now.place limit best.now.ratio) }
{
    0 < limit && comes_before(pair, best.place, limit, best.ratio)
}

// The first of the pairs with the greatest limit, where a rival of it alone can come before the best.
fn next_pair(limits: &[u128], best: &Attempt) -> Option<usize>
    ensures pair { IfSome result (λ p. (p < length limits.now) × (0 < slice_index limits.now p)) }
    ensures none { IfNone result ((k : ℕ) → k < length limits.now → IsUpToAt k best.now.place (slice_index limits.now k) best.now.ratio) }
{
    if limits.is_empty() {
        return None;
    }
    let p = greatest_place(limits);
    if can_come_before(p, limits[p], best) {
        Some(p)
    } else {
        None
    }
}

// The better of the best so far and of what the pair alone shows.
fn better_with<S: Scheme>(
    alloc: Global,
    head: &Head,
    rival: &S,
    plan: &S::Plan,
    best: Attempt,
    pair: usize,
) -> Result<Attempt, Memory>
    requires head { IsValidHead head.now }
    requires plan { S.is_plan rival.now head.now.network (pairs_of head.now) plan.now }
    requires few { S.PATHS ≤ 32 }
    requires pair { pair < length head.now.routes }
    ensures { IfOk result (λ better. (next : Attempt)
        × IsAttempt head.now (RoutesBy (S.relates rival.now head.now.network (pairs_of head.now) plan.now)) (alone (length head.now.routes) pair) next
        × IsBetter best next better) }
{
    let tried = alone(alloc, head.routes.as_slice().len(), pair)?;
    let next = attempt_of(alloc, head, rival, plan, tried)?;
    Ok(better_of(best, next))
}

// The pair has been attempted.
fn clear(limits: &mut Vec<u128>, pair: usize)
    requires { pair < length limits.old.items }
    ensures { limits.new.items ≡ slice_set limits.old.items pair 0 }
{
    limits[pair] = 0;
}

/// The best attempt of every matrix: the direct capacities first, and then pairs alone by falling limits, as long as one can
/// come before the best.
pub fn best_of_all<S: Scheme>(
    alloc: Global,
    head: &Head,
    rival: &S,
    plan: &S::Plan,
) -> Result<Attempt, Memory>
    requires head { IsValidHead head.now }
    requires plan { S.is_plan rival.now head.now.network (pairs_of head.now) plan.now }
    requires few { S.PATHS ≤ 32 }
    requires all { head.now.set ≡ DemandSet.All }
    ensures { IfOk result (IsBestAttempt head.now (RoutesBy (S.relates rival.now head.now.network (pairs_of head.now) plan.now))) }
{
    let mut limits = limits_of_pairs(alloc, head)?;
    let first = direct_capacities(alloc, head)?;
    let mut best = attempt_of(alloc, head, rival, plan, first)?;
    while let Some(p) = next_pair(limits.as_slice(), &best) {
        best = better_with(alloc, head, rival, plan, best, p)?;
        clear(&mut limits, p);
    }
    Ok(best)
}
