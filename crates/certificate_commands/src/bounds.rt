//! `bounds CERT`: what the blocks of a certificate prove of each link.
ghost use Rattle.std.specs.Prelude.{List, IfOk};
ghost use Rattle.te_model.specs.declared.certificate.Block.{Block};
ghost use Rattle.te_model.specs.declared.certificate.Certificate.{Certificate};
ghost use Rattle.te_model.specs.declared.certificate.Head.{Head};
ghost use Rattle.link_bounds.specs.Bounds.{AreBoundsOf};
ghost use Rattle.link_bounds.specs.Feeds.{StandsFor};
ghost use Rattle.command_frame.specs.Outcome.{status_of, answer_text};
ghost use Rattle.certificate_commands.specs.Bounds.{IsBoundsAnswer};

use command_files::{failure_answer, feed_in};
use command_frame::{Answer, Ask, Fault};
use link_bounds::{Bounds as LinkBounds, BoundsFeed};
use std::alloc::Global;
use te_model::Memory;
use te_ports::Depot;

/// `bounds CERT`.
#[derive(Clone, Copy)]
pub struct Bounds<'a> {
    pub certificate: &'a str,
}

impl<'a> Ask for Bounds<'a> {
    ghost use Rattle.certificate_commands.specs.Bounds.{bounds_entry};

    ghost reading = { λ c. (bounds_entry c.certificate.now).reading };

    fn answer<D: Depot>(&self, alloc: Global, depot: &mut D) -> Result<Answer, Fault> {
        let feed: BoundsFeed = feed_in(alloc, depot, self.certificate)?;
        Ok(judge(alloc, feed)?)
    }
}

// The answer on the bounds of this certificate.
fn answer_to(alloc: Global, bounds: LinkBounds) -> Result<Answer, Memory>
    ensures { (certificate : Certificate) → AreBoundsOf certificate bounds →
        IfOk result (λ answer. IsBoundsAnswer certificate (status_of answer) (answer_text answer)) }
{
    match bounds {
        LinkBounds::Table(table) => Ok(Answer::Done(table)),
        LinkBounds::Infeasible { link, rule, place } => failure_answer(alloc, link, rule, place),
    }
}

// The answer on the certificate whose head and blocks the feed was given.
fn judge(alloc: Global, feed: BoundsFeed) -> Result<Answer, Memory>
    requires { (head : Head) × (blocks : List Block) × StandsFor feed head blocks }
    ensures { (head : Head) → (blocks : List Block) → StandsFor feed head blocks →
        IfOk result (λ answer. IsBoundsAnswer (record { head = head; blocks = blocks }) (status_of answer) (answer_text answer)) }
{
    let bounds = feed.finish(alloc)?;
    answer_to(alloc, bounds)
}
