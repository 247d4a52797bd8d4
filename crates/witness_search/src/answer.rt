//! The answers of an attack and of a challenge: the files of the witnesses that they choose.
ghost use Rattle.std.specs.Prelude.{◌<◌, ◌≤◌, IfOk, length};
ghost use Rattle.te_model.specs.Validity.{IsValid, IsValidHead};
ghost use Rattle.witness_search.specs.Attack.{IsAttackFile};
ghost use Rattle.witness_search.specs.Challenge.{IsChallengeFile};

use crate::attacks::attack;
use crate::challenges::challenge;
use ratio_witness::print;
use scheme::Scheme;
use std::alloc::Global;
use te_model::{Certificate, Head, Memory};

/// The file of the witness that [`attack`](crate::attack) chooses, below 340,000,000 bytes.
///
/// `Memory` comes where memory is wanting.
pub fn attack_text<S: Scheme>(alloc: Global, head: &Head, rival: &S) -> Result<Vec<u8>, Memory>
    requires head { IsValidHead head.now }
    requires few { S.PATHS ≤ 32 }
    ensures file { IfOk result (λ file. IsAttackFile (S.is_plan rival.now) (S.relates rival.now) head.now file.items) }
    ensures short { IfOk result (λ file. length file.items < 340000000) }
{
    let witness = attack(alloc, head, rival)?;
    print(alloc, &witness)
}

/// The file of the witness that [`challenge`](crate::challenge) chooses, below 340,000,000 bytes.
///
/// `Memory` comes where memory is wanting.
pub fn challenge_text<S: Scheme>(
    alloc: Global,
    certificate: Certificate,
    rival: &S,
) -> Result<Vec<u8>, Memory>
    requires certificate { IsValid certificate }
    requires few { S.PATHS ≤ 32 }
    ensures file { IfOk result (λ file. IsChallengeFile (S.is_plan rival.now) (S.relates rival.now) certificate.head file.items) }
    ensures short { IfOk result (λ file. length file.items < 340000000) }
{
    let witness = challenge(alloc, certificate, rival)?;
    print(alloc, &witness)
}
