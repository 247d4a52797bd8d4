//! `hose CERT BOUNDS`: a bound of every link's utilisation for all matrices within a hose, with the certificate of it.
ghost use Rattle.std.specs.Prelude.{◌≡◌, IfErr, IfOk};
ghost use Rattle.te_model.specs.Network.{node_count};
ghost use Rattle.te_model.specs.Validity.{IsValidHead};
ghost use Rattle.hose_bound.specs.Rules.{IsValidHose};
ghost use Rattle.te_ports.specs.Shown.{shown_by};
ghost use Rattle.command_frame.specs.declared.answer.Fault.TheVariants.{Memory as OutOfMemory};
ghost use Rattle.command_frame.specs.Outcome.{Follows, status_of, answer_text};
ghost use Rattle.routing_commands.specs.BoundHose.{bounding_of, bounds_reading};

use command_files::{Hoses, head_in};
use command_frame::{Answer, Ask, Fault, value_in};
use hose_bound::{Hose, hose_text};
use std::alloc::Global;
use te_model::Head;
use te_ports::Depot;

/// `hose CERT BOUNDS`.
#[derive(Clone, Copy)]
pub struct BoundHose<'a> {
    pub certificate: &'a str,
    /// What each node of its network may send and receive.
    pub bounds: &'a str,
}

impl<'a> Ask for BoundHose<'a> {
    ghost use Rattle.routing_commands.specs.BoundHose.{bound_hose_entry};

    ghost reading = { λ c. (bound_hose_entry c.certificate.now c.bounds.now).reading };

    fn answer<D: Depot>(&self, alloc: Global, depot: &mut D) -> Result<Answer, Fault> {
        let head = head_in(alloc, depot, self.certificate)?;
        bound_head(alloc, depot, head, self.bounds)
    }
}

// The answer for the routing of this head.
fn bound_head<D: Depot>(
    alloc: Global,
    depot: &mut D,
    head: Head,
    bounds: &str,
) -> Result<Answer, Fault>
    requires { IsValidHead head }
    ensures { Follows (bounds_reading bounds.now head)
        (shown_by D.content D.gave D.faults depot.old) (shown_by D.content D.gave D.faults depot.new) result }
{
    let of = Hoses {
        network: &head.network,
    };
    let hose = value_in(alloc, depot, &of, bounds)?;
    bound_within(alloc, head, hose)
}

// The answer for this hose.
fn bound_within(alloc: Global, head: Head, hose: Hose) -> Result<Answer, Fault>
    requires head { IsValidHead head }
    requires hose { IsValidHose (node_count head.network) hose }
    ensures answer { IfOk result (λ answer. (bounding_of head hose).text (status_of answer) (answer_text answer)) }
    ensures memory { IfErr result (λ fault. fault ≡ OutOfMemory) }
{
    let (_, text) = hose_text(alloc, head, hose)?;
    Ok(Answer::Done(text))
}
