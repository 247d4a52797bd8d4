//! `protect CERT MATRICES K`: what each pair is granted and each path allocated, so that the grants survive any K failed links.
ghost use Rattle.std.specs.Prelude.{◌≡◌, ◌≤◌, IfErr, IfOk, IfSome};
ghost use Rattle.te_model.specs.Network.{node_count};
ghost use Rattle.te_model.specs.Validity.{IsValidHead};
ghost use Rattle.traffic_matrix.specs.First.{first_matrix};
ghost use Rattle.traffic_matrix.specs.Limits.{IsSeries};
ghost use Rattle.fault_rates.specs.Answers.{IsProtectionAnswer};
ghost use Rattle.te_ports.specs.Shown.{shown_by};
ghost use Rattle.command_frame.specs.declared.answer.Fault.TheVariants.{Memory as OutOfMemory};
ghost use Rattle.command_frame.specs.Outcome.{Follows, status_of, answer_text};
ghost use Rattle.command_files.specs.DemandReading.{with_matrices};
ghost use Rattle.routing_commands.specs.Protect.{failures_of, grants_reading};

use command_files::{Matrices, answer_of, decimal_number, head_in};
use command_frame::{Answer, Ask, Fault, value_in};
use fault_rates::{MAX_FAILURES, protect_text};
use std::alloc::Global;
use te_model::Head;
use te_ports::Depot;
use traffic_matrix::{Series, first_matrix};

/// `protect CERT MATRICES K`, of at most 8 failed links.
#[derive(Clone, Copy)]
pub struct Protect<'a> {
    pub certificate: &'a str,
    /// The matrices of the network of the certificate.
    pub matrices: &'a str,
    /// How many links may fail.
    pub failures: u32,
    ghost few: { failures ≤ 8 },
}

impl<'a> Ask for Protect<'a> {
    ghost use Rattle.routing_commands.specs.Protect.{protect_entry};

    ghost reading = { λ c. (protect_entry c.certificate.now c.matrices.now c.failures).reading };

    fn answer<D: Depot>(&self, alloc: Global, depot: &mut D) -> Result<Answer, Fault> {
        let head = head_in(alloc, depot, self.certificate)?;
        protect_head(alloc, depot, &head, self.matrices, self.failures)
    }
}

/// The number of links that may fail, of which the word is the digit.
pub fn failures_of(word: &str) -> Option<u32>
    ensures number { result ≡ failures_of word.now }
    ensures few { IfSome result (λ failures. failures ≤ 8) }
{
    let number = decimal_number(word)?;
    if number <= MAX_FAILURES as u64 {
        Some(number as u32)
    } else {
        None
    }
}

// The answer for the routing of this head.
fn protect_head<D: Depot>(
    alloc: Global,
    depot: &mut D,
    head: &Head,
    matrices: &str,
    failures: u32,
) -> Result<Answer, Fault>
    requires head { IsValidHead head.now }
    requires failures { failures ≤ 8 }
    ensures { Follows (with_matrices matrices.now head.now (grants_reading failures head.now))
        (shown_by D.content D.gave D.faults depot.old) (shown_by D.content D.gave D.faults depot.new) result }
{
    let of = Matrices {
        network: &head.network,
        step: None,
    };
    let series = value_in(alloc, depot, &of, matrices)?;
    protect_under(alloc, head, &series, failures)
}

// The answer under the first matrix of the series.
fn protect_under(
    alloc: Global,
    head: &Head,
    series: &Series,
    failures: u32,
) -> Result<Answer, Fault>
    requires head { IsValidHead head.now }
    requires series { IsSeries (node_count head.now.network) series.now }
    requires failures { failures ≤ 8 }
    ensures answer { IfOk result (λ answer.
        IsProtectionAnswer head.now series.now.pairs.list (first_matrix series.now).demand failures (status_of answer) (answer_text answer)) }
    ensures memory { IfErr result (λ fault. fault ≡ OutOfMemory) }
{
    let matrix = first_matrix(alloc, series)?;
    let (status, text) = protect_text(alloc, head, &series.pairs, &matrix, failures)?;
    Ok(answer_of(status, text))
}
