//! `attack CERT`: a witness against smaller ratios of a certificate's routing, by the routings of multicommodity flow.
ghost use Rattle.std.specs.Prelude.{◌≡◌, IfOk};
ghost use Rattle.te_model.specs.Validity.{IsValidHead};
ghost use Rattle.certificate_commands.specs.Attack.{IsFlowAttack};
ghost use Rattle.command_frame.specs.Outcome.{status_of, answer_text};

use command_files::head_in;
use command_frame::{Answer, Ask, Fault};
use mcf_lengths::Mcf;
use std::alloc::Global;
use te_model::{Head, Memory};
use te_ports::Depot;
use witness_search::attack_text;

/// `attack CERT`.
#[derive(Clone, Copy)]
pub struct Attack<'a> {
    pub certificate: &'a str,
}

impl<'a> Ask for Attack<'a> {
    ghost use Rattle.certificate_commands.specs.Attack.{attack_entry};

    ghost reading = { λ c. (attack_entry c.certificate.now).reading };

    fn answer<D: Depot>(&self, alloc: Global, depot: &mut D) -> Result<Answer, Fault> {
        let head = head_in(alloc, depot, self.certificate)?;
        Ok(witness_of(alloc, &head)?)
    }
}

// The file of a witness of the head.
fn witness_of(alloc: Global, head: &Head) -> Result<Answer, Memory>
    requires { IsValidHead head.now }
    ensures { IfOk result (λ answer. (status_of answer ≡ 0) × IsFlowAttack head.now (answer_text answer)) }
{
    let file = attack_text(alloc, head, &Mcf)?;
    Ok(Answer::Done(file))
}
