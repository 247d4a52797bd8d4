//! `check-hose CERT HOSE`: whether a hose certificate bounds the utilisation of a certificate's routing.
ghost use Rattle.std.specs.Prelude.{IfOk};
ghost use Rattle.te_model.specs.Validity.{IsValidHead};
ghost use Rattle.hose_bound.specs.Answers.{IsHoseVerdict};
ghost use Rattle.hose_bound.specs.Rules.{IsValidHoseCert};
ghost use Rattle.command_frame.specs.Outcome.{status_of, answer_text};

use command_files::{HoseCerts, answer_of, head_in};
use command_frame::{Answer, Ask, Fault, value_in};
use hose_bound::{HoseCert, check_hose_text};
use std::alloc::Global;
use te_model::{Head, Memory};
use te_ports::Depot;

/// `check-hose CERT HOSE`.
#[derive(Clone, Copy)]
pub struct CheckHose<'a> {
    pub certificate: &'a str,
    /// The hose certificate.
    pub hose: &'a str,
}

impl<'a> Ask for CheckHose<'a> {
    ghost use Rattle.routing_commands.specs.CheckHose.{check_hose_entry};

    ghost reading = { λ c. (check_hose_entry c.certificate.now c.hose.now).reading };

    fn answer<D: Depot>(&self, alloc: Global, depot: &mut D) -> Result<Answer, Fault> {
        let head = head_in(alloc, depot, self.certificate)?;
        let of = HoseCerts {
            network: &head.network,
        };
        let cert = value_in(alloc, depot, &of, self.hose)?;
        Ok(judge(alloc, &head, &cert)?)
    }
}

// The answer to the hose certificate of the head.
fn judge(alloc: Global, head: &Head, cert: &HoseCert) -> Result<Answer, Memory>
    requires head { IsValidHead head.now }
    requires cert { IsValidHoseCert head.now.network cert.now }
    ensures { IfOk result (λ answer. IsHoseVerdict head.now cert.now (status_of answer) (answer_text answer)) }
{
    let (status, line) = check_hose_text(alloc, head, cert)?;
    Ok(answer_of(status, line))
}
