//! The attack on a certificate: a witness by a scheme's routings.
ghost use Rattle.std.specs.Prelude.{◌≡◌, ℕ, ◌≤◌, [], Some, None, IfOk, IfSome, IsTrue, replicate};
ghost use Rattle.te_model.specs.Network.{is_well_formed};
ghost use Rattle.te_model.specs.Validity.{IsValidHead};
ghost use Rattle.scheme.specs.Reach.{AllReached, ArePairsOf};
ghost use Rattle.witness_search.specs.Attempts.{AreAttempts, CanTry, GivesBest, IsBestAttempt, IsBetterOfTwo, RoutesBy, pairs_of};
ghost use Rattle.witness_search.specs.Candidates.{no_demand_scale, nothing_of, witness_by, IsChosen, IsWitnessBy};
ghost use Rattle.ratio_witness.specs.Text.{IsWitnessOf};
ghost use Rattle.ratio_witness.specs.Verdict.{verdict_fault};

use crate::attempt::{Attempt, Tried, attempt_of, better_of};
use crate::candidates::{base_of, bound_of};
use crate::search::best_of_all;
use ratio_witness::Witness;
use scheme::{Scheme, SchemeFault};
use std::alloc::Global;
use te_model::{DemandSet, Head, Items, Matrix, Memory, Network, Pairs, PathShare};

/// The greatest bound of a witness.
pub const GREATEST_BOUND: u128 = 9_999_999_999_999_999_999;

// The declared pairs.
fn pairs_of(alloc: Global, head: &Head) -> Result<Pairs, Memory>
    ensures { IfOk result (λ pairs. pairs.list ≡ pairs_of head.now) }
{
    let routes = head.routes.as_slice();
    let mut list = Vec::with_capacity(alloc, routes.len())?;
    for route in routes {
        list.push(route.pair)?;
    }
    Ok(Pairs {
        list: Items::new(list),
    })
}

// What the scheme's routing of the matrix shows, where there is one.
fn attempt_if_some<S: Scheme>(
    alloc: Global,
    head: &Head,
    rival: &S,
    plan: &S::Plan,
    tried: Option<Tried>,
) -> Result<Option<Attempt>, Memory>
    requires head { IsValidHead head.now }
    requires plan { S.is_plan rival.now head.now.network (pairs_of head.now) plan.now }
    requires few { S.PATHS ≤ 32 }
    requires tried { IfSome tried (CanTry head.now) }
    ensures { IfOk result (AreAttempts head.now (RoutesBy (S.relates rival.now head.now.network (pairs_of head.now) plan.now)) tried) }
{
    match tried {
        Some(tried) => Ok(Some(attempt_of(alloc, head, rival, plan, tried)?)),
        None => Ok(None),
    }
}

// The better of two attempts, of which each may be missing.
fn better_of_two(first: Option<Attempt>, second: Option<Attempt>) -> Option<Attempt>
    ensures { IsBetterOfTwo first second result }
{
    match first {
        Some(first) => match second {
            Some(second) => Some(better_of(first, second)),
            None => Some(first),
        },
        None => second,
    }
}

// Of a box: the lower bounds, and then the upper ones, where these are small enough.
fn best_of_box<S: Scheme>(
    alloc: Global,
    head: &Head,
    rival: &S,
    plan: &S::Plan,
    lower: &Matrix,
    upper: &Matrix,
) -> Result<Option<Attempt>, Memory>
    requires head { IsValidHead head.now }
    requires plan { S.is_plan rival.now head.now.network (pairs_of head.now) plan.now }
    requires few { S.PATHS ≤ 32 }
    requires bounds { head.now.set ≡ DemandSet.Box lower.now upper.now }
    ensures { IfOk result (GivesBest head.now (RoutesBy (S.relates rival.now head.now.network (pairs_of head.now) plan.now))) }
{
    let low = bound_of(alloc, 0, lower)?;
    let high = bound_of(alloc, 1, upper)?;
    let first = attempt_if_some(alloc, head, rival, plan, low)?;
    let second = attempt_if_some(alloc, head, rival, plan, high)?;
    Ok(better_of_two(first, second))
}

// Of a margin: its base.
fn best_of_margin<S: Scheme>(
    alloc: Global,
    head: &Head,
    rival: &S,
    plan: &S::Plan,
    den: u64,
    base: &Matrix,
) -> Result<Attempt, Memory>
    requires head { IsValidHead head.now }
    requires plan { S.is_plan rival.now head.now.network (pairs_of head.now) plan.now }
    requires few { S.PATHS ≤ 32 }
    requires base { (num : ℕ) × (head.now.set ≡ DemandSet.Margin num den base.now) }
    ensures { IfOk result (IsBestAttempt head.now (RoutesBy (S.relates rival.now head.now.network (pairs_of head.now) plan.now))) }
{
    let tried = base_of(alloc, den, base)?;
    attempt_of(alloc, head, rival, plan, tried)
}

// The best attempt, if there is a matrix that can be tried.
fn best_of<S: Scheme>(
    alloc: Global,
    head: &Head,
    rival: &S,
    plan: &S::Plan,
) -> Result<Option<Attempt>, Memory>
    requires head { IsValidHead head.now }
    requires plan { S.is_plan rival.now head.now.network (pairs_of head.now) plan.now }
    requires few { S.PATHS ≤ 32 }
    ensures { IfOk result (GivesBest head.now (RoutesBy (S.relates rival.now head.now.network (pairs_of head.now) plan.now))) }
{
    match &head.set {
        DemandSet::All => Ok(Some(best_of_all(alloc, head, rival, plan)?)),
        DemandSet::Margin { num: _, den, base } => Ok(Some(best_of_margin(
            alloc, head, rival, plan, *den, base,
        )?)),
        DemandSet::Box { lower, upper } => best_of_box(alloc, head, rival, plan, lower, upper),
    }
}

// No path.
fn no_path(alloc: Global) -> Items<PathShare>
    ensures { result ≡ [] }
{
    Items::new(Vec::new(alloc))
}

// No path for each of so many pairs.
fn no_paths(alloc: Global, pairs: usize) -> Result<Items<Items<PathShare>>, Memory>
    ensures { IfOk result (λ rival. rival ≡ replicate pairs []) }
{
    let mut rival = Vec::with_capacity(alloc, pairs)?;
    for _ in 0..pairs {
        rival.push(no_path(alloc))?;
    }
    Ok(Items::new(rival))
}

// The scale of a witness without a demand.
fn no_demand_scale(set: &DemandSet) -> u64
    ensures { result ≡ no_demand_scale set.now }
{
    match set {
        DemandSet::All => 1,
        DemandSet::Margin { .. } => 0,
        DemandSet::Box { .. } => 0,
    }
}

// The witness that shows nothing: no demands and no paths.
fn nothing_shown(alloc: Global, head: &Head) -> Result<Witness, Memory>
    ensures { IfOk result (λ w. w ≡ nothing_of head.now) }
{
    let pairs = head.routes.as_slice().len();
    let demand = vec![in alloc; 0; pairs]?;
    let rival = no_paths(alloc, pairs)?;
    Ok(Witness {
        bound: 0,
        x: no_demand_scale(&head.set),
        y: 1,
        demand: Matrix {
            demand: Items::new(demand),
        },
        rival,
    })
}

/// The witness of an attempt: its bound is the ratio that it shows.
pub fn bounded(best: Attempt) -> Witness
    ensures { result ≡ witness_by best }
{
    let mut witness = best.witness;
    witness.bound = best.ratio.min(GREATEST_BOUND) as u64;
    witness
}

// The witness of the best attempt, or the one that shows nothing where its ratio is 0.
fn witness_of(alloc: Global, head: &Head, best: Attempt) -> Result<Witness, Memory>
    ensures { IfOk result (IsWitnessBy head.now (Some best)) }
{
    if best.ratio == 0 {
        nothing_shown(alloc, head)
    } else {
        Ok(bounded(best))
    }
}

// The witness of the best attempt, if there is one.
fn witness_if_some(alloc: Global, head: &Head, best: Option<Attempt>) -> Result<Witness, Memory>
    ensures { IfOk result (IsWitnessBy head.now best) }
{
    match best {
        Some(best) => witness_of(alloc, head, best),
        None => nothing_shown(alloc, head),
    }
}

// The scheme's plan for pairs that each have a path.
fn plan_with<S: Scheme>(
    alloc: Global,
    rival: &S,
    net: &Network,
    pairs: &Pairs,
) -> Result<S::Plan, Memory>
    requires network { IsTrue (is_well_formed net.now) }
    requires pairs { ArePairsOf net.now pairs.now.list }
    requires reached { AllReached net.now pairs.now.list }
    ensures { IfOk result (S.is_plan rival.now net.now pairs.now.list) }
{
    match rival.prepare(alloc, net, pairs) {
        Ok(plan) => Ok(plan),
        Err(SchemeFault::Memory) => Err(Memory),
        Err(SchemeFault::NoPath(_)) => unreachable!(),
    }
}

/// The scheme's plan for the declared pairs. `Memory` comes where memory is wanting.
pub fn plan_of<S: Scheme>(alloc: Global, head: &Head, rival: &S) -> Result<S::Plan, Memory>
    requires { IsValidHead head.now }
    ensures { IfOk result (S.is_plan rival.now head.now.network (pairs_of head.now)) }
{
    let pairs = pairs_of(alloc, head)?;
    plan_with(alloc, rival, &head.network, &pairs)
}

/// The witness of [`attack`] by this plan. `Memory` comes where memory is wanting.
pub fn attack_by<S: Scheme>(
    alloc: Global,
    head: &Head,
    rival: &S,
    plan: &S::Plan,
) -> Result<Witness, Memory>
    requires head { IsValidHead head.now }
    requires plan { S.is_plan rival.now head.now.network (pairs_of head.now) plan.now }
    requires few { S.PATHS ≤ 32 }
    ensures witness { IfOk result (IsWitnessOf head.now) }
    ensures yes { IfOk result (λ w. verdict_fault head.now w ≡ None) }
    ensures chosen { IfOk result (IsChosen head.now (RoutesBy (S.relates rival.now head.now.network (pairs_of head.now) plan.now))) }
{
    let best = best_of(alloc, head, rival, plan)?;
    witness_if_some(alloc, head, best)
}

/// A witness against smaller ratios of the certificate's routing, by the routings of a scheme.
///
/// Of every matrix it tries each pair alone and the matrix of direct capacities, of a margin its base, and of a box its bounds
/// where these are small enough. It chooses the first of the greatest performance ratio, which is the bound, up to the greatest
/// of a witness. No pair is routed alone that no rival can bring before the best so far (by what the links at its ends carry).
/// Without a ratio above 0 the bound is 0, and the witness has no demands and no paths.
///
/// `Memory` comes where memory is wanting: each pair of a valid head has a path.
pub fn attack<S: Scheme>(alloc: Global, head: &Head, rival: &S) -> Result<Witness, Memory>
    requires head { IsValidHead head.now }
    requires few { S.PATHS ≤ 32 }
    ensures witness { IfOk result (IsWitnessOf head.now) }
    ensures yes { IfOk result (λ w. verdict_fault head.now w ≡ None) }
    ensures chosen { IfOk result (λ w. (plan : S.Plan) × S.is_plan rival.now head.now.network (pairs_of head.now) plan
        × IsChosen head.now (RoutesBy (S.relates rival.now head.now.network (pairs_of head.now) plan)) w) }
{
    let plan = plan_of(alloc, head, rival)?;
    attack_by(alloc, head, rival, &plan)
}
