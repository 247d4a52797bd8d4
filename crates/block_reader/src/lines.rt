//! The lines of a file that stand ready.
ghost use Rattle.std.specs.Prelude.{◌≡◌, ◌≢◌, ◌⊎◌, ◌≤◌, ◌+◌, ◌++◌, ℕ, List, [], length, IfOk, OnOk, Ok, Err};
ghost use Rattle.block_reader.specs.Standing.{ready, fetched_of, state_of, limit_of, room_of};

use crate::file_limit::FileLimit;
use crate::stream_fault::StreamFault;
use crate::window::{State, Window};
use cert_text::Stop;
use cert_text::cursor::Bytes;
use cert_text::reader::Reader;
use std::alloc::Global;
use te_ports::Depot;

// How many bytes of a file stand ready at most: as many as reading of any part of it looks at, and no more.
const ROOM: usize = 1_310_720;

// How many bytes reading of the first line looks at.
const FIRST_LINE: usize = 14;

/// The bytes of a file that stand ready, and the line in which they begin.
#[derive(Drop)]
pub(crate) struct Lines {
    window: Window,
    line: u64,
    ghost few: { line + length (ready window) ≤ 1 + fetched_of window },
    ghost room: { room_of window ≡ 1310720 },
}

impl Lines {
    ghost use Rattle.block_reader.specs.Standing.{StandsAt, StandsIn};
    ghost use Rattle.block_reader.specs.Answers.{IsBehind, IsOpeningFault, IsWell, HasEnough, IsClosedBy, PassesFront, IsDrained};
    ghost use Rattle.te_ports.specs.Record.{Read, pass};
    ghost use Rattle.te_ports.specs.Shown.{shown_by};
    ghost use Rattle.block_reader.specs.Depots.{ReadsNamed, ReadsTo};

    /// The first bytes of the file of this name.
    ///
    /// # Errors
    ///
    /// `Failed` where a read failed, and `Memory` where memory is short.
    pub(crate) fn open<D: Depot>(
        alloc: Global,
        depot: &mut D,
        name: &str,
    ) -> Result<Lines, StreamFault>
        ensures behind { IfOk result (λ lines. IsBehind (pass name.now (D.gave depot.old) (D.gave depot.new)) lines []) }
        ensures line { IfOk result (λ lines. lines.line ≡ 1) }
        ensures well { IfOk result IsWell }
        ensures refused { (fault : StreamFault) → result ≡ Err fault →
            IsOpeningFault (pass name.now (D.gave depot.old) (D.gave depot.new)) fault }
        ensures reads { ReadsNamed (shown_by D.content D.gave D.faults depot.old) (shown_by D.content D.gave D.faults depot.new)
            name.now result }
    {
        let window = Window::at_start(alloc, depot, name, &FileLimit, FIRST_LINE, ROOM)?;
        Lines::at_start(window)
    }

    /// The first bytes of a file. `Failed` where a read failed.
    pub(crate) fn at_start(window: Window) -> Result<Lines, StreamFault>
        requires { room_of window ≡ 1310720 }
        ensures window { IfOk result (λ lines. lines.window ≡ window) }
        ensures line { IfOk result (λ lines. lines.line ≡ 1) }
        ensures well { IfOk result IsWell }
        ensures failed { (fault : StreamFault) → result ≡ Err fault → (fault ≡ StreamFault.Failed) × (state_of window ≡ State.Failed) }
    {
        match window.state() {
            State::Failed => Err(StreamFault::Failed),
            _ => Ok(Lines { window, line: 1 }),
        }
    }

    /// A reader of the bytes that stand ready.
    pub(crate) fn reader(&self) -> Reader<Bytes<'_>>
        ensures bytes { result.source.bytes.now ≡ ready self.now.window }
        ensures line { result.line ≡ self.now.line }
    {
        Reader::at_line(Bytes::new(self.window.ready()), self.line)
    }

    /// Goes on where a reader of the bytes that stood ready left so many of them, in this line.
    pub(crate) fn pass(&mut self, left: usize, line: u64)
        requires left { left ≤ length (ready self.old.window) }
        requires line { line + left ≤ self.old.line + length (ready self.old.window) }
        ensures passes { (front : List ℕ) → (rest : List ℕ) → ready self.old.window ≡ front ++ rest → length rest ≡ left →
            (ready self.new.window ≡ rest) × PassesFront self.old.window self.new.window front }
        ensures line { self.new.line ≡ line }
    {
        let count = self.window.ready().len() - left;
        self.window.pass(count);
        self.line = line;
    }

    /// Makes as many bytes stand ready as are asked for, or all that are left.
    ///
    /// # Errors
    ///
    /// `Failed` where a read failed, and `TooLong` where the file has more bytes than its limit.
    pub(crate) fn fill<D: Depot>(
        &mut self,
        depot: &mut D,
        name: &str,
        wanted: usize,
    ) -> Result<(), StreamFault>
        requires well { IsWell self.old }
        requires fits { wanted ≤ 1310720 }
        ensures behind { (before : List Read) → (passed : List ℕ) → IsBehind (pass name.now before (D.gave depot.old)) self.old passed →
            IsBehind (pass name.now before (D.gave depot.new)) self.new passed }
        ensures stood { (before : List Read) → (passed : List ℕ) → IsBehind (pass name.now before (D.gave depot.old)) self.old passed →
            (content : List ℕ) → StandsIn content self.new.window passed → StandsIn content self.old.window passed }
        ensures enough { OnOk result (HasEnough self.new.window wanted) }
        ensures well { OnOk result (IsWell self.new) }
        ensures closed { (fault : StreamFault) → result ≡ Err fault → IsClosedBy self.new.window fault }
        ensures room { result ≢ Err StreamFault.Memory }
        ensures line { self.new.line ≡ self.old.line }
        ensures reads { ReadsNamed (shown_by D.content D.gave D.faults depot.old) (shown_by D.content D.gave D.faults depot.new)
            name.now result }
    {
        self.window.fill(depot, name, wanted);
        match self.window.state() {
            State::Failed => Err(StreamFault::Failed),
            State::TooLong => Err(StreamFault::TooLong),
            State::Open | State::Ended => Ok(()),
        }
    }

    // The fault of a file that leaves the format at this line: it is read to its end, or past its limit, which is the
    // fault then, or to a read that fails.
    fn misshaped<D: Depot>(&mut self, depot: &mut D, name: &str, line: u64) -> StreamFault
        requires well { IsWell self.old }
        ensures drained { (before : List Read) → (passed : List ℕ) → IsBehind (pass name.now before (D.gave depot.old)) self.old passed →
            IsDrained (pass name.now before (D.gave depot.new)) self.old.window passed (Stop.Shape line) result }
        ensures room { result ≢ StreamFault.Memory }
        ensures reads { ReadsTo (shown_by D.content D.gave D.faults depot.old) (shown_by D.content D.gave D.faults depot.new)
            name.now result }
    {
        let count = self.window.ready().len();
        self.window.pass(count);
        self.window.drain(depot, name);
        match self.window.state() {
            State::Failed => StreamFault::Failed,
            State::TooLong => StreamFault::TooLong,
            State::Open | State::Ended => StreamFault::Shape(line),
        }
    }

    /// The fault of a file whose reading stopped.
    pub(crate) fn stopped<D: Depot>(&mut self, depot: &mut D, name: &str, stop: Stop) -> StreamFault
        requires well { IsWell self.old }
        ensures drained { (before : List Read) → (passed : List ℕ) → IsBehind (pass name.now before (D.gave depot.old)) self.old passed →
            IsDrained (pass name.now before (D.gave depot.new)) self.old.window passed stop result }
        ensures memory { result ≡ StreamFault.Memory → stop ≡ Stop.Memory }
        ensures reads { ReadsTo (shown_by D.content D.gave D.faults depot.old) (shown_by D.content D.gave D.faults depot.new)
            name.now result }
    {
        match stop {
            Stop::Shape(line) => self.misshaped(depot, name, line),
            Stop::Memory => StreamFault::Memory,
        }
    }
}
