//! The streams of the system. They tell what they took, and count each failure.
ghost use Rattle.std.specs.Prelude.{◌≡◌, ◌≤◌, ◌<◌, ◌+◌, ◌-◌, ◌^◌, [], ◌∷◌, ◌++◌, ℕ, List, length, take, IfOk, OnOk, OnErr};
ghost use Rattle.std.specs.declared.option.Option.{Option};
ghost use Rattle.std.specs.declared.result.Result.{Result};
ghost use Rattle.te_ports.specs.declared.system.SystemFault.{SystemFault as Fault};
ghost use Rattle.std.specs.Io.{WritesAtMost};
ghost use Rattle.std.specs.Io.KnownBytes.{Appends, Keeps, WriteAppends};
ghost use Rattle.te_ports.specs.Calls.{SystemCall, writes, taken_of};
ghost use Rattle.te_ports.specs.Ports.{Rose};
ghost use Rattle.te_ports.specs.Trying.{IsTried, IsWriteAnswer, NotesWrite};

use crate::system::TRIES;
use crate::{Call, Failed, Log, Sink, SystemFault};
use std::io::Write;

/// A stream of the system, and what it answers.
pub trait Stream {
    /// The bytes that it has, where it tells them.
    ghost contents: { Self → Option (List ℕ) };

    /// The calls of the system, and what it answered.
    ghost calls: { Self → List SystemCall };

    /// Asks the system once.
    fn write_once(&mut self, bytes: &[u8]) -> Result<usize, SystemFault>
        ensures bound { WritesAtMost result bytes.now }
        ensures bytes { WriteAppends (contents self.old) (contents self.new) result bytes.now }
        ensures called { calls self.new ≡ calls self.old ++ writes bytes.now result ∷ [] };
}

/// A stream that takes bytes, with its calls.
///
/// No clause says what a call of the system does. So `ask` has to be read: that `write_once`, which notes what `ask` answered,
/// notes a write of those bytes.
#[derive(Drop)]
pub struct SystemStream<W: Write + Drop> {
    inner: W,
    log: Log,
}

impl<W: Write + Drop> SystemStream<W> {
    /// The bytes go to this stream.
    pub fn new(inner: W) -> Self
        ensures inner { result.inner ≡ inner }
        ensures nothing_written { result.log.calls ≡ [] }
    {
        SystemStream {
            inner,
            log: Log::new(),
        }
    }

    // Writes once.
    fn ask(&mut self, bytes: &[u8]) -> Result<usize, SystemFault>
        ensures bound { WritesAtMost result bytes.now }
        ensures bytes { WriteAppends (W.contents self.old.inner) (W.contents self.new.inner) result bytes.now }
        ensures log { self.new.log.calls ≡ self.old.log.calls }
    {
        match self.inner.write(bytes) {
            Ok(count) => Ok(count),
            Err(error) => Err(SystemFault::from(error)),
        }
    }
}

impl<W: Write + Drop> Stream for SystemStream<W> {
    ghost contents = { λ s. W.contents s.inner };

    ghost calls = { λ s. s.log.calls };

    fn write_once(&mut self, bytes: &[u8]) -> Result<usize, SystemFault> {
        let answer = self.ask(bytes);
        self.log = self.log.then(&Call::Write { bytes, answer });
        answer
    }
}

/// A stream that takes bytes, as standard output. It tells what was taken by the calls that are on record. Its faults are the
/// count of failed writes, which stands still at 2^64 - 1. A stream that takes nothing of bytes that are there has failed. A
/// write that a signal interrupts is tried again, a hundred times in all.
#[derive(Drop)]
pub struct RealSink<W: Stream + Drop> {
    inner: W,
    faults: u64,
}

impl<W: Write + Drop> RealSink<SystemStream<W>> {
    /// The bytes go to this stream.
    pub fn new(inner: W) -> Self
        ensures inner { result.inner.inner ≡ inner }
        ensures nothing_written { result.inner.log.calls ≡ [] }
        ensures no_fault { result.faults ≡ 0 }
    {
        RealSink::over(SystemStream::new(inner))
    }
}

impl<W: Stream + Drop> RealSink<W> {
    /// The bytes go to this stream.
    pub fn over(inner: W) -> Self
        ensures inner { result.inner ≡ inner }
        ensures no_fault { result.faults ≡ 0 }
    {
        RealSink { inner, faults: 0 }
    }
}

// Asks until no signal interrupts, a hundred times at most, and answers what the system answered last.
fn write_again<W: Stream>(stream: &mut W, bytes: &[u8]) -> Result<usize, SystemFault>
    ensures bound { WritesAtMost result bytes.now }
    ensures bytes { WriteAppends (W.contents stream.old) (W.contents stream.new) result bytes.now }
    ensures tried { IsTried (NotesWrite W.calls bytes.now) stream.old result stream.new }
{
    let mut answer = stream.write_once(bytes);
    'tries: for _ in 1..TRIES {
        let Err(SystemFault::Interrupted) = answer else {
            break;
        };
        answer = stream.write_once(bytes);
    }
    answer
}

impl<W: Stream + Drop> Sink for RealSink<W> {
    ghost use Rattle.std.specs.Prelude.{Some};

    ghost written = { λ s. Some (taken_of (W.calls s.inner)) };

    ghost faults = { λ s. s.faults };

    fn put(&mut self, bytes: &[u8]) -> Result<usize, Failed>
        ensures bound { IfOk result (λ n. n ≤ length bytes.now) }
        ensures progress { IfOk result (λ n. 0 < length bytes.now → 1 ≤ n) }
        ensures appended { IfOk result (λ n.
            taken_of (W.calls self.new.inner) ≡ taken_of (W.calls self.old.inner) ++ take n bytes.now) }
        ensures unchanged { OnErr result (taken_of (W.calls self.new.inner) ≡ taken_of (W.calls self.old.inner)) }
        ensures steady { OnOk result (self.new.faults ≡ self.old.faults) }
        ensures failed { OnErr result (Rose self.old.faults self.new.faults) }
        ensures later { self.old.faults ≤ self.new.faults }

        // The calls are on record, what the system answered last is the answer, and where the stream tells its bytes, it has the
        // first n more.
        ensures answered { (answer : Result ℕ Fault) ×
            IsTried (NotesWrite W.calls bytes.now) self.old.inner answer self.new.inner ×
            IsWriteAnswer bytes.now answer result }
        ensures takes { IfOk result (λ n.
            Appends (W.contents self.old.inner) (W.contents self.new.inner) (take n bytes.now)) }
        ensures takes_nothing { OnErr result (Keeps (W.contents self.old.inner) (W.contents self.new.inner)) }
    {
        match write_again(&mut self.inner, bytes) {
            Ok(count) if count > 0 || bytes.is_empty() => Ok(count),
            _ => {
                self.faults = self.faults.saturating_add(1);
                Err(Failed)
            }
        }
    }
}
