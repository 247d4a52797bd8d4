//! What is written of an answer or a fault, and which status it has.
ghost use Rattle.std.specs.Prelude.{◌≡◌, ◌≤◌};
ghost use Rattle.command_frame.specs.Outcome.{Delivers, status_of, answer_text, status_of_fault, fault_text};
ghost use Rattle.command_frame.specs.Run.{change, Says};

use crate::answer::{Answer, Fault};
use te_ports::{Sink, put_all};

/// Writes a message, of which a failed write may leave a part.
pub fn say<E: Sink>(err: &mut E, text: &[u8])
    ensures said { Says (change E.written E.faults err.old err.new) text.now }
    ensures later { E.faults err.old ≤ E.faults err.new }
{
    let _ = put_all(err, text);
}

/// Writes a text to `out`, and gives the status, or 5 where a write failed, which the message says.
pub fn write<O: Sink, E: Sink>(out: &mut O, err: &mut E, text: &[u8], status: u8) -> u8
    requires { status ≤ 1 }
    ensures { Delivers result status text.now (change O.written O.faults out.old out.new) (change E.written E.faults err.old err.new) }
{
    match put_all(out, text) {
        Ok(()) => status,
        Err(_) => {
            say(err, b"fault: write\n");
            5
        }
    }
}

/// Writes an answer, and gives the status: a pair without a path is named to `err`, and all else is written to `out`.
pub fn deliver<O: Sink, E: Sink>(out: &mut O, err: &mut E, answer: &Answer) -> u8
    ensures { Delivers result (status_of answer.now) (answer_text answer.now)
        (change O.written O.faults out.old out.new) (change E.written E.faults err.old err.new) }
{
    match answer {
        Answer::Done(text) => write(out, err, text.as_slice(), 0),
        Answer::No(line) => write(out, err, line.as_slice(), 1),
        Answer::NoPath(line) => {
            say(err, line.as_slice());
            7
        }
    }
}

/// Says why a command has no answer, and gives the status.
pub fn say_fault<E: Sink>(err: &mut E, fault: &Fault) -> u8
    ensures status { result ≡ status_of_fault fault.now }
    ensures said { Says (change E.written E.faults err.old err.new) (fault_text fault.now) }
    ensures later { E.faults err.old ≤ E.faults err.new }
{
    match fault {
        Fault::Refused(line) => {
            say(err, line.as_bytes());
            3
        }
        Fault::Read => {
            say(err, b"fault: read\n");
            4
        }
        Fault::Memory => {
            say(err, b"fault: memory\n");
            6
        }
    }
}
