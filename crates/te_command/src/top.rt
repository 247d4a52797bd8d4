//! The top call: all that the program does.
ghost use Rattle.std.specs.Prelude.{◌≡◌, ◌↔◌, ℕ, None};
ghost use Rattle.te_ports.specs.Ports.{Rose};
ghost use Rattle.te_ports.specs.Record.{Adds};
ghost use Rattle.command_frame.specs.Files.{span, known_files, told_files};
ghost use Rattle.command_frame.specs.Reading.{Means, MeansStatus, ReadFailed};
ghost use Rattle.te_command.specs.Commands.{command_of, reading_of};
ghost use Rattle.command_frame.specs.Run.{texts, change, Answered, IsOrFails, GivesOrMemory, Written, Steady, Later};
ghost use Rattle.te_command.specs.Run.{OfCommand, OfToldCommand, WritesMeant, SaysMeant, WritesProof, WritesPartMeant, HasForm, ReadsInOrder};

use crate::words::Commands;
use std::alloc::Global;
use te_ports::{Depot, Sink};

/// Does all that the program does, and answers its status. The words are the arguments without the program's name.
///
/// | Status | When | What is written |
/// |---|---|---|
/// | 0 | the answer is yes, a certificate is published or converted, the schemes are compared, a step of them is broken down, a drawn network is summed up, a witness is found, an update is planned, rates are made, a hose is bounded, links are bounded, or a certificate is repriced, tightened or simulated | the line, the certificate's file, the report, the breakdown, the summary, the witness, the plan, the rates, the hose certificate or the needs of the links, to `out` |
/// | 1 | the answer is no, also to a certificate that is to be bounded by link, repriced or tightened; an update has no plan, or the declared pairs of rates are others | the line, to `out` |
/// | 2 | the words are no form of a command | `usage`, to `err` |
/// | 3 | a file is refused | the file and the reason, to `err` |
/// | 4 | a read failed | `fault: read`, to `err` |
/// | 5 | a write to `out` failed | a part of the text to `out`, and `fault: write` to `err` |
/// | 6 | memory is short | `fault: memory`, to `err` |
/// | 7 | nothing is published, since a declared pair has no path | the names of the first such pair, to `err` |
///
/// A failed write to `err` changes no status.
pub fn run<D: Depot, O: Sink, E: Sink>(
    alloc: Global,
    words: &Vec<String>,
    depot: &mut D,
    out: &mut O,
    err: &mut E,
) -> u8
    // 2 exactly where the words are no form of a command.
    ensures usage { (result ≡ 2) ↔ (command_of (texts words.now) ≡ None) }

    // 0, 1, 3 and 7 only where that is what the bytes mean that the reads of the call gave, of each file one after another from its
    // start to its end: of any depot, and of a file that is told the told bytes.
    ensures yes { result ≡ 0 → WritesMeant (texts words.now) (known_files (span (D.gave depot.old) (D.gave depot.new)) (D.content depot.old)) 0
        (change O.written O.faults out.old out.new) }
    ensures no { result ≡ 1 → WritesMeant (texts words.now) (known_files (span (D.gave depot.old) (D.gave depot.new)) (D.content depot.old)) 1
        (change O.written O.faults out.old out.new) }
    ensures refused { result ≡ 3 → SaysMeant (texts words.now) (known_files (span (D.gave depot.old) (D.gave depot.new)) (D.content depot.old)) 3
        (change E.written E.faults err.old err.new) }
    ensures no_path { result ≡ 7 → SaysMeant (texts words.now) (known_files (span (D.gave depot.old) (D.gave depot.new)) (D.content depot.old)) 7
        (change E.written E.faults err.old err.new) }

    // The text that was written at 0 is proved by the bytes that mean it, and at 5 it was a part of what was to be written.
    ensures proves { result ≡ 0 → WritesProof (texts words.now) (known_files (span (D.gave depot.old) (D.gave depot.new)) (D.content depot.old))
        (change O.written O.faults out.old out.new) }
    ensures part { result ≡ 5 → WritesPartMeant (texts words.now) (known_files (span (D.gave depot.old) (D.gave depot.new)) (D.content depot.old))
        (change O.written O.faults out.old out.new) }

    // Where all files are told that are to be read: the same of what the told files mean.
    ensures told { OfToldCommand (texts words.now) (D.content depot.old) (λ command.
        Answered (reading_of command) (told_files (D.content depot.old)) result
        (change O.written O.faults out.old out.new) (change E.written E.faults err.old err.new)) }

    // Whatever the files hold, the command may answer so: each file that is published, repriced or tightened is one to which `check` says yes, and each
    // that is converted is one of the second format.
    ensures form { OfCommand (texts words.now) (λ command.
        HasForm command result (change O.written O.faults out.old out.new) (change E.written E.faults err.old err.new)) }

    // Whatever the status, the reads of the call are passes over the files of the command, in their order, and no others: each came to the
    // end of its file, whose bytes gave the value with which the command goes on, but for the last. Of other words nothing is read.
    ensures order { ReadsInOrder (texts words.now) (span (D.gave depot.old) (D.gave depot.new)) }

    // 4 only by a failed read of a file that is reached by what reads gave of those before it, and 5 only by a failed write.
    ensures read { result ≡ 4 → OfCommand (texts words.now) (λ command.
        ReadFailed (reading_of command) (known_files (span (D.gave depot.old) (D.gave depot.new)) (D.content depot.old))
        (λ file. Rose (D.faults depot.old file) (D.faults depot.new file))) }
    ensures write { result ≡ 5 → Rose (O.faults out.old) (O.faults out.new) }

    // What the told files mean is answered, unless a read or a write failed or memory was short.
    ensures exact { OfToldCommand (texts words.now) (D.content depot.old) (λ command. (status : ℕ) →
        MeansStatus (reading_of command) (told_files (D.content depot.old)) status →
        IsOrFails result status) }
    ensures complete { OfToldCommand (texts words.now) (D.content depot.old) (λ command. (status : ℕ) →
        MeansStatus (reading_of command) (told_files (D.content depot.old)) status →
        ¬ ReadFailed (reading_of command) (told_files (D.content depot.old)) (λ file. Rose (D.faults depot.old file) (D.faults depot.new file)) →
        ¬ Rose (O.faults out.old) (O.faults out.new) →
        GivesOrMemory result (change O.written O.faults out.old out.new) status
        (Means (reading_of command) (told_files (D.content depot.old)) status)) }

    // What is written, and that nothing else is.
    ensures written { Written result (change O.written O.faults out.old out.new) (change E.written E.faults err.old err.new) }

    // The files stay, reads are only added to the record, and no count of faults falls, or rises without its status.
    ensures content { D.content depot.new ≡ D.content depot.old }
    ensures added { Adds (D.content depot.old) (D.gave depot.old) (D.gave depot.new) }
    ensures steady { Steady result (D.faults depot.old) (D.faults depot.new) (change O.written O.faults out.old out.new) }
    ensures later { Later (D.faults depot.old) (D.faults depot.new)
        (change O.written O.faults out.old out.new) (change E.written E.faults err.old err.new) }
{
    command_frame::run(alloc, &Commands, words, depot, out, err)
}
