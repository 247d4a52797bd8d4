//! The answer to a witness: the status, and the whole text.
ghost use Rattle.std.specs.Prelude.{◌≡◌, IfOk, string_bytes};
ghost use Rattle.te_model.specs.Validity.{IsValidHead};
ghost use Rattle.ratio_witness.specs.Answers.{verdict_line, verdict_status, IsBoundVerdict};
ghost use Rattle.ratio_witness.specs.Rules.{KeepsRules};
ghost use Rattle.ratio_witness.specs.Witness.{NoLowerRatio};

use crate::verdict::{WitnessVerdict, judge};
use crate::witness::Witness;
use std::alloc::Global;
use te_model::{Head, Memory};

fn verdict_status(verdict: WitnessVerdict) -> u8
    ensures { result ≡ verdict_status verdict }
{
    match verdict {
        WitnessVerdict::Yes => 0,
        WitnessVerdict::No { .. } => 1,
    }
}

// The line of the verdict on a witness with this bound.
fn verdict_line(alloc: Global, bound: u64, verdict: WitnessVerdict) -> Result<String, Memory>
    ensures { IfOk result (λ line. string_bytes line ≡ verdict_line bound verdict) }
{
    match verdict {
        WitnessVerdict::Yes => Ok(format!(in alloc; "yes bound {bound}\n")?),
        WitnessVerdict::No { rule, place } => {
            Ok(format!(in alloc; "no rule J{rule} place {place}\n")?)
        }
    }
}

/// The answer to a witness: 0 and `yes bound L`, or 1 and `no rule JK place P`, each with a line feed.
///
/// Answers an error only where memory runs out.
pub fn check_witness_text(
    alloc: Global,
    head: &Head,
    witness: &Witness,
) -> Result<(u8, Vec<u8>), Memory>
    requires head { IsValidHead head.now }
    requires rules { KeepsRules head.now witness.now }
    ensures answer { IfOk result (λ answer. IsBoundVerdict head.now witness.now answer.0 answer.1.items) }

    // At the status 0 no number below the bound is an oblivious ratio of the certificate's routing for its set.
    ensures proves { IfOk result (λ answer. answer.0 ≡ 0 → NoLowerRatio head.now.network head.now.routes head.now.set witness.now.bound) }
{
    let verdict = judge(head, witness);
    let line = verdict_line(alloc, witness.bound, verdict)?;
    Ok((verdict_status(verdict), line.into_bytes()))
}
