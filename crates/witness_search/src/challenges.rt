//! The challenge of a certificate: the witness of an attack, or of matrices that are found by a search, whichever shows most.
ghost use Rattle.std.specs.Prelude.{◌≡◌, ◌≤◌, All, IfOk, None, length};
ghost use Rattle.te_model.specs.Validity.{IsValid, IsValidHead};
ghost use Rattle.ratio_witness.specs.Text.{IsWitnessOf};
ghost use Rattle.ratio_witness.specs.Verdict.{verdict_fault};
ghost use Rattle.worst_matrices.specs.Members.{IsScaledMember};
ghost use Rattle.witness_search.specs.Attempts.{RoutesBy, pairs_of};
ghost use Rattle.witness_search.specs.Candidates.{IsChosen};
ghost use Rattle.witness_search.specs.Challenge.{IsChallenge, IsGreaterOf, IsRaised};

use crate::attacks::{GREATEST_BOUND, attack_by, bounded, plan_of};
use crate::attempt::{Attempt, attempt_of};
use crate::found::{Found, found_for, tried_of};
use ratio_witness::Witness;
use scheme::Scheme;
use std::alloc::Global;
use te_model::{Certificate, Head, Memory};
use worst_matrices::ScaledMatrix;

/// The witness, or that of the attempt where its bound is greater.
fn greater_of(witness: Witness, attempt: Attempt) -> Witness
    ensures { IsGreaterOf witness attempt result }
{
    if u128::from(witness.bound) < attempt.ratio.min(GREATEST_BOUND) {
        bounded(attempt)
    } else {
        witness
    }
}

/// The witness, or that of the matrix where its bound is greater.
fn raise_by<S: Scheme>(
    alloc: Global,
    head: &Head,
    rival: &S,
    plan: &S::Plan,
    witness: Witness,
    matrix: &ScaledMatrix,
) -> Result<Witness, Memory>
    requires head { IsValidHead head.now }
    requires plan { S.is_plan rival.now head.now.network (pairs_of head.now) plan.now }
    requires few { S.PATHS ≤ 32 }
    requires matrix { IsScaledMember head.now.set (length head.now.routes) matrix.now }
    ensures { IfOk result (λ w. (own : Witness) → IsRaised head.now (RoutesBy (S.relates rival.now head.now.network (pairs_of head.now) plan.now)) own witness →
        IsRaised head.now (RoutesBy (S.relates rival.now head.now.network (pairs_of head.now) plan.now)) own w) }
{
    let tried = tried_of(alloc, matrix)?;
    let attempt = attempt_of(alloc, head, rival, plan, tried)?;
    Ok(greater_of(witness, attempt))
}

/// The witness, or that of the matrix that shows most where its bound is greater.
fn raise<S: Scheme>(
    alloc: Global,
    head: &Head,
    rival: &S,
    plan: &S::Plan,
    own: Witness,
    matrices: &[ScaledMatrix],
) -> Result<Witness, Memory>
    requires head { IsValidHead head.now }
    requires plan { S.is_plan rival.now head.now.network (pairs_of head.now) plan.now }
    requires few { S.PATHS ≤ 32 }
    requires own { IsWitnessOf head.now own }
    requires yes { verdict_fault head.now own ≡ None }
    requires matrices { All (IsScaledMember head.now.set (length head.now.routes)) matrices.now }
    ensures { IfOk result (IsRaised head.now (RoutesBy (S.relates rival.now head.now.network (pairs_of head.now) plan.now)) own) }
{
    let mut best = own;
    for matrix in matrices {
        best = raise_by(alloc, head, rival, plan, best, matrix)?;
    }
    Ok(best)
}

/// The challenge of a head, with these matrices.
fn challenge_with<S: Scheme>(
    alloc: Global,
    head: &Head,
    rival: &S,
    matrices: &[ScaledMatrix],
) -> Result<Witness, Memory>
    requires head { IsValidHead head.now }
    requires few { S.PATHS ≤ 32 }
    requires matrices { All (IsScaledMember head.now.set (length head.now.routes)) matrices.now }
    ensures { IfOk result (IsChallenge (S.is_plan rival.now) (S.relates rival.now) head.now) }
{
    let plan = plan_of(alloc, head, rival)?;
    let own = attack_by(alloc, head, rival, &plan)?;
    raise(alloc, head, rival, &plan, own, matrices)
}

/// A witness against smaller ratios of the certificate's routing, by the routings of a scheme: that of
/// [`attack`](crate::attack), or of matrices that are found for the link whose block needs most
/// ([`worst_matrices`](worst_matrices::worst_matrices)), whichever has the greatest bound. It is that of the attack where no other
/// has a greater one.
///
/// `Memory` comes where memory is wanting.
pub fn challenge<S: Scheme>(
    alloc: Global,
    certificate: Certificate,
    rival: &S,
) -> Result<Witness, Memory>
    requires certificate { IsValid certificate }
    requires few { S.PATHS ≤ 32 }
    ensures { IfOk result (IsChallenge (S.is_plan rival.now) (S.relates rival.now) certificate.head) }
{
    let Found { head, matrices } = found_for(alloc, certificate)?;
    challenge_with(alloc, &head, rival, matrices.as_slice())
}
