//! All that `main` does: the words that follow the program's name, and the top call over them.
ghost use Rattle.std.specs.Prelude.{◌≡◌, ◌≢◌, ◌⊎◌, [], IfErr, IfOk, drop, map, string_bytes};
ghost use Rattle.std.specs.IoError.{error_kind};
ghost use Rattle.std.specs.Vec.Iter.{into_iter_items};
ghost use Rattle.te_ports.specs.Shown.{shown_by};
ghost use Rattle.command_frame.specs.Run.{change};
ghost use Rattle.command_frame.specs.Clauses.{HasNoMemoryForWords};
ghost use Rattle.te_command.specs.Clauses.{RunOf};

use crate::words::Commands;
use std::alloc::Global;
use std::env::Args;
use std::io::{self, ErrorKind};
use te_ports::{Depot, Sink};

/// Does all that the program does, and answers its status. The arguments are the program's name and the words of `run`, or why
/// the system gave none.
///
/// Arguments that are no text are no form of a command, as no words are. Where memory is short for them or for the words, the
/// status is 6: nothing is read, nothing is written to `out`, and `fault: memory` is said to `err`.
pub fn serve<D: Depot, O: Sink, E: Sink>(
    alloc: Global,
    args: io::Result<Args>,
    depot: &mut D,
    out: &mut O,
    err: &mut E,
) -> u8
    // The clauses of `run` hold of the arguments but the first, or memory is short for them.
    ensures words { IfOk args (λ given.
        RunOf (map string_bytes (drop 1 (into_iter_items given)))
        (shown_by D.content D.gave D.faults depot.old) (shown_by D.content D.gave D.faults depot.new) result
        (change O.written O.faults out.old out.new) (change E.written E.faults err.old err.new) ⊎
        HasNoMemoryForWords (shown_by D.content D.gave D.faults depot.old) (shown_by D.content D.gave D.faults depot.new) result
        (change O.written O.faults out.old out.new) (change E.written E.faults err.old err.new)) }

    // Of arguments that are no text they hold as of no words.
    ensures no_text { IfErr args (λ fault. error_kind fault ≢ ErrorKind.OutOfMemory →
        RunOf [] (shown_by D.content D.gave D.faults depot.old) (shown_by D.content D.gave D.faults depot.new) result
        (change O.written O.faults out.old out.new) (change E.written E.faults err.old err.new)) }

    // Where memory was short for the arguments, it is so for the words.
    ensures short { IfErr args (λ fault. error_kind fault ≡ ErrorKind.OutOfMemory →
        HasNoMemoryForWords (shown_by D.content D.gave D.faults depot.old) (shown_by D.content D.gave D.faults depot.new) result
        (change O.written O.faults out.old out.new) (change E.written E.faults err.old err.new)) }
{
    command_frame::serve(alloc, &Commands, args, depot, out, err)
}
