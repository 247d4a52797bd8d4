//! `challenge CERT`: a witness against smaller ratios of a certificate's routing, by a search for the worst matrices.
ghost use Rattle.std.specs.Prelude.{◌≡◌, IfOk};
ghost use Rattle.te_model.specs.Validity.{IsValid};
ghost use Rattle.certificate_commands.specs.Challenge.{IsFlowChallenge};
ghost use Rattle.command_frame.specs.Outcome.{status_of, answer_text};

use command_files::Certificates;
use command_frame::{Answer, Ask, Fault, value_in};
use mcf_lengths::Mcf;
use std::alloc::Global;
use te_model::{Certificate, Memory};
use te_ports::Depot;
use witness_search::challenge_text;

/// `challenge CERT`.
#[derive(Clone, Copy)]
pub struct Challenge<'a> {
    pub certificate: &'a str,
}

impl<'a> Ask for Challenge<'a> {
    ghost use Rattle.certificate_commands.specs.Challenge.{challenge_entry};

    ghost reading = { λ c. (challenge_entry c.certificate.now).reading };

    fn answer<D: Depot>(&self, alloc: Global, depot: &mut D) -> Result<Answer, Fault> {
        let spelled = value_in(alloc, depot, &Certificates, self.certificate)?;
        Ok(witness_of(alloc, spelled)?)
    }
}

// The file of a witness of the certificate.
fn witness_of(alloc: Global, certificate: Certificate) -> Result<Answer, Memory>
    requires { IsValid certificate }
    ensures { IfOk result (λ answer. (status_of answer ≡ 0) × IsFlowChallenge certificate.head (answer_text answer)) }
{
    let file = challenge_text(alloc, certificate, &Mcf)?;
    Ok(Answer::Done(file))
}
