//! What every command promises.
ghost use Rattle.command_frame.specs.Reading.{Reading};
ghost use Rattle.te_ports.specs.Shown.{shown_by};
ghost use Rattle.command_frame.specs.Outcome.{Follows};

use crate::answer::{Answer, Fault};
use std::alloc::Global;
use te_ports::Depot;

/// A command, with the names of its files.
pub trait Ask {
    /// What it reads, in order, and what it answers.
    ghost reading: { Self → Reading };

    /// Reads the files and answers. A file is read only where no file before it is refused.
    ///
    /// `Refused` comes only for what reads of a file gave, and `Read` only where a read of one failed in the call.
    fn answer<D: Depot>(&self, alloc: Global, depot: &mut D) -> Result<Answer, Fault>
        ensures { Follows (reading self.now) (shown_by D.content D.gave D.faults depot.old)
            (shown_by D.content D.gave D.faults depot.new) result };
}
