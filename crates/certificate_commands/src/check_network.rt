//! `check CERT TOPOLOGY`: the same, and whether the certificate's network is that of a topology.
ghost use Rattle.std.specs.Prelude.{◌≡◌, ◌↔◌, List, IfOk, IsTrue};
ghost use Rattle.te_model.specs.declared.certificate.Block.{Block};
ghost use Rattle.te_model.specs.declared.certificate.Head.{Head};
ghost use Rattle.te_model.specs.declared.network.Network.{Network};
ghost use Rattle.ratio_checker.specs.Feeds.{StandsFor};
ghost use Rattle.te_ports.specs.Shown.{shown_by};
ghost use Rattle.update_plan.specs.Answer.{no_network_line};
ghost use Rattle.command_files.specs.Check.{IsNetworkVerdict};
ghost use Rattle.command_frame.specs.Outcome.{status_of, answer_text};
ghost use Rattle.certificate_commands.specs.Outcome.{ReadsSame};

use crate::check::judge;
use command_files::{Topologies, feed_in};
use command_frame::{Answer, Ask, Fault, value_in};
use ratio_checker::Feed;
use std::alloc::Global;
use te_model::{Memory, Network, same_network};
use te_ports::Depot;

/// `check CERT TOPOLOGY`.
#[derive(Clone, Copy)]
pub struct CheckNetwork<'a> {
    pub certificate: &'a str,
    pub topology: &'a str,
}

impl<'a> Ask for CheckNetwork<'a> {
    ghost use Rattle.command_files.specs.Check.{check_network_entry};

    ghost reading = { λ c. (check_network_entry c.certificate.now c.topology.now).reading };

    fn answer<D: Depot>(&self, alloc: Global, depot: &mut D) -> Result<Answer, Fault> {
        let feed: Feed = feed_in(alloc, depot, self.certificate)?;
        let same = is_network_of(alloc, depot, &feed.head().network, self.topology)?;
        Ok(judge_on(alloc, feed, same)?)
    }
}

// Whether the network is that of the topology in the file of this name.
fn is_network_of<D: Depot>(
    alloc: Global,
    depot: &mut D,
    network: &Network,
    topology: &str,
) -> Result<bool, Fault>
    ensures { ReadsSame network.now topology.now (shown_by D.content D.gave D.faults depot.old)
        (shown_by D.content D.gave D.faults depot.new) result }
{
    let read = value_in(alloc, depot, &Topologies, topology)?;
    Ok(same_network(network, &read))
}

// The answer on a certificate of another network.
fn no_network(alloc: Global) -> Result<Answer, Memory>
    ensures { IfOk result (λ answer. (status_of answer ≡ 1) × (answer_text answer ≡ no_network_line)) }
{
    let line = format!(in alloc; "no network\n")?;
    Ok(Answer::No(line.into_bytes()))
}

// The answer on the certificate whose head and blocks the feed was given, and whose network is the one that is asked for
// or another one.
fn judge_on(alloc: Global, feed: Feed, same: bool) -> Result<Answer, Memory>
    requires { (head : Head) × (blocks : List Block) × StandsFor feed head blocks }
    ensures { (head : Head) → (blocks : List Block) → StandsFor feed head blocks →
        (network : Network) → (IsTrue same ↔ (head.network ≡ network)) →
        IfOk result (λ answer. IsNetworkVerdict (record { head = head; blocks = blocks }) network (status_of answer) (answer_text answer)) }
{
    if same {
        judge(alloc, feed)
    } else {
        no_network(alloc)
    }
}
