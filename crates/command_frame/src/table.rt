//! What a program gives of its commands.
ghost use Rattle.std.specs.Prelude.{map, string_bytes};
ghost use Rattle.te_ports.specs.Shown.{shown_by};
ghost use Rattle.command_frame.specs.Table.{TableOf};
ghost use Rattle.command_frame.specs.Outcome.{AnswersWords};

use crate::answer::{Answer, Fault};
use std::alloc::Global;
use te_ports::Depot;

/// A table of commands.
pub trait Table {
    /// What a command is.
    ghost Command: { Type 0 };

    /// The words that ask for each, and what it reads and answers.
    ghost table: { TableOf Command };

    /// The answer of the command of the words, or none where they are no form of one, and then nothing is read.
    fn answer<D: Depot>(
        &self,
        alloc: Global,
        words: &[String],
        depot: &mut D,
    ) -> Option<Result<Answer, Fault>>
        ensures { AnswersWords table (map string_bytes words.now) (shown_by D.content D.gave D.faults depot.old)
            (shown_by D.content D.gave D.faults depot.new) result };
}
