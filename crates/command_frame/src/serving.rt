//! All that `main` does over a table of commands: the words that follow the program's name, and the top call over them.
ghost use Rattle.std.specs.Prelude.{◌≡◌, ◌≢◌, ◌⊎◌, [], IfErr, IfOk, IsOkAnd, OnOk, drop, map, string_bytes};
ghost use Rattle.std.specs.IoError.{error_kind};
ghost use Rattle.std.specs.Vec.Iter.{into_iter_items};
ghost use Rattle.te_ports.specs.Shown.{shown_by};
ghost use Rattle.command_frame.specs.Run.{change};
ghost use Rattle.command_frame.specs.Table.{IsSoundTable};
ghost use Rattle.command_frame.specs.Clauses.{RunOf, HasNoMemoryForWords};

use crate::answer::Fault;
use crate::table::Table;
use crate::top::run;
use crate::writing::say_fault;
use std::alloc::{AllocError, Global};
use std::env::Args;
use std::io::{self, ErrorKind};
use te_ports::{Depot, Sink};

// All of these words but the first.
fn all_but_first(alloc: Global, mut args: Args) -> Result<Vec<String>, AllocError>
    ensures { IfOk result (λ words. words.items ≡ drop 1 (into_iter_items args)) }
{
    let _ = args.next();
    let mut words = Vec::new(alloc);
    for word in args {
        words.push(word)?;
    }
    Ok(words)
}

// The words after the program's name. Words that are no text are no form of a command, as no words are; the want of memory
// is none of these.
fn words_after_name(alloc: Global, args: io::Result<Args>) -> Result<Vec<String>, AllocError>
    ensures words { IfOk args (λ given. IfOk result (λ words. words.items ≡ drop 1 (into_iter_items given))) }
    ensures short { IfErr args (λ fault. error_kind fault ≡ ErrorKind.OutOfMemory → OnOk result ⊥) }
    ensures no_text { IfErr args (λ fault. error_kind fault ≢ ErrorKind.OutOfMemory → IsOkAnd result (λ words. words.items ≡ [])) }
{
    match args {
        Ok(args) => all_but_first(alloc, args),
        Err(fault) if fault.kind() == ErrorKind::OutOfMemory => Err(AllocError),
        Err(_) => Ok(Vec::new(alloc)),
    }
}

/// Does all that the program does, and answers its status. The arguments are the program's name and the words of `run`, or why
/// the system gave none.
///
/// Arguments that are no text are no form of a command, as no words are. Where memory is short for them or for the words, the
/// status is 6: nothing is read, nothing is written to `out`, and `fault: memory` is said to `err`.
pub fn serve<T: Table, D: Depot, O: Sink, E: Sink>(
    alloc: Global,
    table: &T,
    args: io::Result<Args>,
    depot: &mut D,
    out: &mut O,
    err: &mut E,
) -> u8
    requires { IsSoundTable T.table }

    // The clauses of `run` hold of the arguments but the first, or memory is short for them.
    ensures words { IfOk args (λ given.
        RunOf T.table (map string_bytes (drop 1 (into_iter_items given)))
        (shown_by D.content D.gave D.faults depot.old) (shown_by D.content D.gave D.faults depot.new) result
        (change O.written O.faults out.old out.new) (change E.written E.faults err.old err.new) ⊎
        HasNoMemoryForWords (shown_by D.content D.gave D.faults depot.old) (shown_by D.content D.gave D.faults depot.new) result
        (change O.written O.faults out.old out.new) (change E.written E.faults err.old err.new)) }

    // Of arguments that are no text they hold as of no words.
    ensures no_text { IfErr args (λ fault. error_kind fault ≢ ErrorKind.OutOfMemory →
        RunOf T.table [] (shown_by D.content D.gave D.faults depot.old) (shown_by D.content D.gave D.faults depot.new) result
        (change O.written O.faults out.old out.new) (change E.written E.faults err.old err.new)) }

    // Where memory was short for the arguments, it is so for the words.
    ensures short { IfErr args (λ fault. error_kind fault ≡ ErrorKind.OutOfMemory →
        HasNoMemoryForWords (shown_by D.content D.gave D.faults depot.old) (shown_by D.content D.gave D.faults depot.new) result
        (change O.written O.faults out.old out.new) (change E.written E.faults err.old err.new)) }
{
    match words_after_name(alloc, args) {
        Ok(words) => run(alloc, table, &words, depot, out, err),
        Err(_) => say_fault(err, &Fault::Memory),
    }
}
