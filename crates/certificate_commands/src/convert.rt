//! `convert CERT`: the certificate in a file, as a file of the second format.
ghost use Rattle.std.specs.Prelude.{◌≡◌, IfOk};
ghost use Rattle.te_model.specs.Text.{text};
ghost use Rattle.te_model.specs.Validity.{IsValid};
ghost use Rattle.certificate_commands.specs.Convert.{conversion_of};
ghost use Rattle.command_frame.specs.Outcome.{status_of, answer_text};

use cert_text::{print, upgrade};
use command_files::Certificates;
use command_frame::{Answer, Ask, Fault, value_in};
use std::alloc::Global;
use te_model::{Certificate, Memory};
use te_ports::Depot;

/// `convert CERT`.
#[derive(Clone, Copy)]
pub struct Convert<'a> {
    pub certificate: &'a str,
}

impl<'a> Ask for Convert<'a> {
    ghost use Rattle.certificate_commands.specs.Convert.{convert_entry};

    ghost reading = { λ c. (convert_entry c.certificate.now).reading };

    fn answer<D: Depot>(&self, alloc: Global, depot: &mut D) -> Result<Answer, Fault> {
        let spelled = value_in(alloc, depot, &Certificates, self.certificate)?;
        Ok(upgraded_file(alloc, spelled)?)
    }
}

// The file of the certificate.
fn file_of(alloc: Global, certificate: &Certificate) -> Result<Answer, Memory>
    ensures { IfOk result (λ answer. (status_of answer ≡ 0) × (answer_text answer ≡ text certificate.now)) }
{
    let file = print(alloc, certificate)?;
    Ok(Answer::Done(file))
}

// The file of the certificate in the second format.
fn upgraded_file(alloc: Global, certificate: Certificate) -> Result<Answer, Memory>
    requires { IsValid certificate }
    ensures { IfOk result (λ answer. (conversion_of certificate).text (status_of answer) (answer_text answer)) }
{
    let upgraded = upgrade(alloc, certificate)?;
    file_of(alloc, &upgraded)
}
