//! `check CERT`: whether the certificate in a file proves its ratio.
ghost use Rattle.std.specs.Prelude.{◌≡◌, List, IfOk, string_bytes};
ghost use Rattle.te_model.specs.declared.certificate.Block.{Block};
ghost use Rattle.te_model.specs.declared.certificate.Certificate.{Certificate};
ghost use Rattle.te_model.specs.declared.certificate.Head.{Head};
ghost use Rattle.ratio_checker.specs.Feeds.{StandsFor};
ghost use Rattle.command_files.specs.Check.{IsVerdict, yes_line};
ghost use Rattle.command_frame.specs.Outcome.{status_of, answer_text};
ghost use Rattle.certificate_commands.specs.Outcome.{IsLineOf};

use command_files::{failure_answer, feed_in};
use command_frame::{Answer, Ask, Fault};
use ratio_checker::{Feed, Finding};
use std::alloc::Global;
use te_model::{DemandSet, Memory};
use te_ports::Depot;

/// `check CERT`.
#[derive(Clone, Copy)]
pub struct Check<'a> {
    pub certificate: &'a str,
}

impl<'a> Ask for Check<'a> {
    ghost use Rattle.command_files.specs.Check.{check_entry};

    ghost reading = { λ c. (check_entry c.certificate.now).reading };

    fn answer<D: Depot>(&self, alloc: Global, depot: &mut D) -> Result<Answer, Fault> {
        let feed: Feed = feed_in(alloc, depot, self.certificate)?;
        Ok(judge(alloc, feed)?)
    }
}

// The line of a yes.
fn yes_line(alloc: Global, ratio: u64, set: &DemandSet) -> Result<String, Memory>
    ensures { IfOk result (λ line. string_bytes line ≡ yes_line ratio set.now) }
{
    match set {
        DemandSet::All => Ok(format!(in alloc; "yes ratio {ratio} set all\n")?),
        DemandSet::Margin { num, den, .. } => {
            Ok(format!(in alloc; "yes ratio {ratio} set margin {num} {den}\n")?)
        }
        DemandSet::Box { .. } => Ok(format!(in alloc; "yes ratio {ratio} set box\n")?),
    }
}

// The line of what was found of a certificate, of which this is the line of a yes.
fn line_of(alloc: Global, yes: String, finding: Finding) -> Result<Answer, Memory>
    ensures { (certificate : Certificate) → string_bytes yes ≡ yes_line certificate.head.ratio certificate.head.set →
        IfOk result (IsLineOf certificate finding) }
{
    match finding {
        Finding::Yes => Ok(Answer::Done(yes.into_bytes())),
        Finding::No { link, rule, place } => failure_answer(alloc, link, rule, place),
    }
}

/// The answer on the certificate whose head and blocks the feed was given.
pub fn judge(alloc: Global, feed: Feed) -> Result<Answer, Memory>
    requires { (head : Head) × (blocks : List Block) × StandsFor feed head blocks }
    ensures { (head : Head) → (blocks : List Block) → StandsFor feed head blocks →
        IfOk result (λ answer. IsVerdict (record { head = head; blocks = blocks }) (status_of answer) (answer_text answer)) }
{
    let yes = yes_line(alloc, feed.head().ratio, &feed.head().set)?;
    line_of(alloc, yes, feed.finish())
}
