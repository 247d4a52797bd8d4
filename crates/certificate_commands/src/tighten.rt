//! `tighten CERT`: a certificate of the same routing with a lower ratio.
ghost use Rattle.std.specs.Prelude.{IfOk};
ghost use Rattle.te_model.specs.Validity.{IsValid};
ghost use Rattle.te_model.specs.Feasible.{AreFeasible};
ghost use Rattle.command_frame.specs.Outcome.{status_of, answer_text};
ghost use Rattle.certificate_commands.specs.Tighten.{IsTightenedFile, IsTightening};

use cert_text::print;
use command_files::{Certificates, failure_answer};
use command_frame::{Answer, Ask, Fault, value_in};
use link_bounds::find_infeasibility;
use ratio_checker::Finding;
use ratio_tightening::tighten;
use std::alloc::Global;
use te_model::{Certificate, Memory};
use te_ports::Depot;

/// `tighten CERT`.
#[derive(Clone, Copy)]
pub struct Tighten<'a> {
    pub certificate: &'a str,
}

impl<'a> Ask for Tighten<'a> {
    ghost use Rattle.certificate_commands.specs.Tighten.{tighten_entry};

    ghost reading = { λ c. (tighten_entry c.certificate.now).reading };

    fn answer<D: Depot>(&self, alloc: Global, depot: &mut D) -> Result<Answer, Fault> {
        let spelled = value_in(alloc, depot, &Certificates, self.certificate)?;
        Ok(tightened_answer(alloc, spelled)?)
    }
}

// The file of a tightened certificate.
fn tightened_file(alloc: Global, certificate: Certificate) -> Result<Answer, Memory>
    requires valid { IsValid certificate }
    requires feasible { AreFeasible certificate }
    ensures { IfOk result (λ answer. IsTightenedFile certificate (status_of answer) (answer_text answer)) }
{
    let tighter = tighten(alloc, certificate)?;
    let file = print(alloc, &tighter)?;
    Ok(Answer::Done(file))
}

// The answer on the certificate.
fn tightened_answer(alloc: Global, certificate: Certificate) -> Result<Answer, Memory>
    requires { IsValid certificate }
    ensures { IfOk result (λ answer. IsTightening certificate (status_of answer) (answer_text answer)) }
{
    let finding = find_infeasibility(alloc, &certificate)?;
    match finding {
        Finding::Yes => tightened_file(alloc, certificate),
        Finding::No { link, rule, place } => failure_answer(alloc, link, rule, place),
    }
}
