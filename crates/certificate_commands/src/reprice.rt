//! `reprice CERT TOPOLOGY`: the certificate of the same routing on the capacities of a topology.
ghost use Rattle.std.specs.Prelude.{◌≡◌, ◌⊎◌, None, Some, IfOk};
ghost use Rattle.te_model.specs.Inequalities.{first_failure};
ghost use Rattle.te_model.specs.Text.{text};
ghost use Rattle.te_model.specs.Validity.{IsValid};
ghost use Rattle.te_ports.specs.Shown.{shown_by};
ghost use Rattle.link_bounds.specs.Laws.{CanReprice};
ghost use Rattle.command_frame.specs.Outcome.{Follows, status_of, answer_text};
ghost use Rattle.command_files.specs.Check.{SaysNo};
ghost use Rattle.certificate_commands.specs.Reprice.{IsRepricing, capacities_reading};

use cert_text::print;
use command_files::{Capacities, Certificates, failure_answer};
use command_frame::{Answer, Ask, Fault, value_in};
use link_bounds::reprice;
use ratio_checker::{Finding, verdict};
use std::alloc::Global;
use te_model::{Certificate, Memory, Network};
use te_ports::Depot;

/// `reprice CERT TOPOLOGY`.
#[derive(Clone, Copy)]
pub struct Reprice<'a> {
    pub certificate: &'a str,
    /// A topology with the links of the certificate's network.
    pub topology: &'a str,
}

impl<'a> Ask for Reprice<'a> {
    ghost use Rattle.certificate_commands.specs.Reprice.{reprice_entry};

    ghost reading = { λ c. (reprice_entry c.certificate.now c.topology.now).reading };

    fn answer<D: Depot>(&self, alloc: Global, depot: &mut D) -> Result<Answer, Fault> {
        let spelled = value_in(alloc, depot, &Certificates, self.certificate)?;
        answer_on(alloc, depot, spelled, self.topology)
    }
}

// The answer on the certificate, with the capacities of the topology in the file of this name.
fn answer_on<D: Depot>(
    alloc: Global,
    depot: &mut D,
    certificate: Certificate,
    topology: &str,
) -> Result<Answer, Fault>
    requires { IsValid certificate }
    ensures { Follows (capacities_reading topology.now certificate)
        (shown_by D.content D.gave D.faults depot.old) (shown_by D.content D.gave D.faults depot.new) result }
{
    let of = Capacities {
        certificate: &certificate,
    };
    let network = value_in(alloc, depot, &of, topology)?;
    Ok(repriced_answer(alloc, certificate, network)?)
}

// The answer on the certificate with the capacities of the network.
fn repriced_answer(
    alloc: Global,
    certificate: Certificate,
    network: Network,
) -> Result<Answer, Memory>
    requires valid { IsValid certificate }
    requires can { CanReprice certificate network }
    ensures { IfOk result (λ answer. IsRepricing certificate network (status_of answer) (answer_text answer)) }
{
    let repriced = reprice(certificate, network);
    file_or_no(alloc, &repriced)
}

// The file of the certificate where its inequalities hold, or the line of the first that fails.
fn file_or_no(alloc: Global, certificate: &Certificate) -> Result<Answer, Memory>
    requires { IsValid certificate.now }
    ensures { IfOk result (λ answer.
        ((status_of answer ≡ 0) × (first_failure certificate.now ≡ None) × (answer_text answer ≡ text certificate.now))
        ⊎ ((status_of answer ≡ 1) × SaysNo certificate.now (answer_text answer))) }
{
    match verdict(certificate) {
        Finding::Yes => {
            let file = print(alloc, certificate)?;
            Ok(Answer::Done(file))
        }
        Finding::No { link, rule, place } => failure_answer(alloc, link, rule, place),
    }
}
