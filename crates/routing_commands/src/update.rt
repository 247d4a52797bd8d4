//! `update OLD NEW MATRICES`: a plan in steps from the routing of one certificate to that of another, which overloads no link.
ghost use Rattle.std.specs.Prelude.{◌≡◌, IfErr, IfOk};
ghost use Rattle.te_model.specs.Network.{node_count};
ghost use Rattle.te_model.specs.Validity.{IsValidHead};
ghost use Rattle.traffic_matrix.specs.First.{first_matrix};
ghost use Rattle.traffic_matrix.specs.Limits.{IsSeries};
ghost use Rattle.update_plan.specs.Answer.{IsUpdateText};
ghost use Rattle.te_ports.specs.Shown.{shown_by};
ghost use Rattle.command_frame.specs.declared.answer.Fault.TheVariants.{Memory as OutOfMemory};
ghost use Rattle.command_frame.specs.Outcome.{Follows, status_of, answer_text};
ghost use Rattle.routing_commands.specs.Update.{matrices_reading, newer_reading};

use command_files::{Matrices, answer_of, head_in};
use command_frame::{Answer, Ask, Fault, value_in};
use std::alloc::Global;
use te_model::Head;
use te_ports::Depot;
use traffic_matrix::{Series, first_matrix};
use update_plan::update_text;

/// `update OLD NEW MATRICES`.
#[derive(Clone, Copy)]
pub struct Update<'a> {
    /// The certificate of the routing that stands.
    pub before: &'a str,
    /// The certificate of the routing that is to follow.
    pub after: &'a str,
    /// The matrices of the network of the first.
    pub matrices: &'a str,
}

impl<'a> Ask for Update<'a> {
    ghost use Rattle.routing_commands.specs.Update.{update_entry};

    ghost reading = { λ c. (update_entry c.before.now c.after.now c.matrices.now).reading };

    fn answer<D: Depot>(&self, alloc: Global, depot: &mut D) -> Result<Answer, Fault> {
        let before = head_in(alloc, depot, self.before)?;
        update_from(alloc, depot, &before, self.after, self.matrices)
    }
}

// The answer on an update from the routing of this head.
fn update_from<D: Depot>(
    alloc: Global,
    depot: &mut D,
    before: &Head,
    certificate: &str,
    matrices: &str,
) -> Result<Answer, Fault>
    requires { IsValidHead before.now }
    ensures { Follows (newer_reading certificate.now matrices.now before.now)
        (shown_by D.content D.gave D.faults depot.old) (shown_by D.content D.gave D.faults depot.new) result }
{
    let after = head_in(alloc, depot, certificate)?;
    update_between(alloc, depot, before, &after, matrices)
}

// The answer on an update between the routings of these heads.
fn update_between<D: Depot>(
    alloc: Global,
    depot: &mut D,
    before: &Head,
    after: &Head,
    matrices: &str,
) -> Result<Answer, Fault>
    requires before { IsValidHead before.now }
    requires after { IsValidHead after.now }
    ensures { Follows (matrices_reading matrices.now before.now after.now)
        (shown_by D.content D.gave D.faults depot.old) (shown_by D.content D.gave D.faults depot.new) result }
{
    let of = Matrices {
        network: &before.network,
        step: None,
    };
    let series = value_in(alloc, depot, &of, matrices)?;
    update_under(alloc, before, after, &series)
}

// The answer on an update under the first matrix of the series.
fn update_under(
    alloc: Global,
    before: &Head,
    after: &Head,
    series: &Series,
) -> Result<Answer, Fault>
    requires before { IsValidHead before.now }
    requires after { IsValidHead after.now }
    requires series { IsSeries (node_count before.now.network) series.now }
    ensures answer { IfOk result (λ answer.
        IsUpdateText before.now after.now series.now.pairs.list (first_matrix series.now).demand (status_of answer) (answer_text answer)) }
    ensures memory { IfErr result (λ fault. fault ≡ OutOfMemory) }
{
    let matrix = first_matrix(alloc, series)?;
    let (status, text) = update_text(alloc, before, after, &series.pairs, &matrix)?;
    Ok(answer_of(status, text))
}
