//! `check-witness CERT WITNESS`: whether a witness shows that no ratio below its bound is true of a certificate's routing.
ghost use Rattle.std.specs.Prelude.{IfOk};
ghost use Rattle.te_model.specs.Validity.{IsValidHead};
ghost use Rattle.ratio_witness.specs.Answers.{IsBoundVerdict};
ghost use Rattle.ratio_witness.specs.Rules.{KeepsRules};
ghost use Rattle.command_frame.specs.Outcome.{status_of, answer_text};

use command_files::{Witnesses, head_in};
use command_frame::{Answer, Ask, Fault, value_in};
use ratio_witness::{Witness, check_witness_text};
use std::alloc::Global;
use te_model::{Head, Memory};
use te_ports::Depot;

/// `check-witness CERT WITNESS`.
#[derive(Clone, Copy)]
pub struct CheckWitness<'a> {
    pub certificate: &'a str,
    pub witness: &'a str,
}

impl<'a> Ask for CheckWitness<'a> {
    ghost use Rattle.certificate_commands.specs.CheckWitness.{check_witness_entry};

    ghost reading = { λ c. (check_witness_entry c.certificate.now c.witness.now).reading };

    fn answer<D: Depot>(&self, alloc: Global, depot: &mut D) -> Result<Answer, Fault> {
        let head = head_in(alloc, depot, self.certificate)?;
        let of = Witnesses { head: &head };
        let witness = value_in(alloc, depot, &of, self.witness)?;
        Ok(judge(alloc, &head, &witness)?)
    }
}

// The answer to the witness of the head.
fn judge(alloc: Global, head: &Head, witness: &Witness) -> Result<Answer, Memory>
    requires head { IsValidHead head.now }
    requires rules { KeepsRules head.now witness.now }
    ensures { IfOk result (λ answer. IsBoundVerdict head.now witness.now (status_of answer) (answer_text answer)) }
{
    let (status, line) = check_witness_text(alloc, head, witness)?;
    if status == 0 {
        Ok(Answer::Done(line))
    } else {
        Ok(Answer::No(line))
    }
}
