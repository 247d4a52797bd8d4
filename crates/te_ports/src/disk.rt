//! The files of the system, of which one at a time is kept open.
ghost use Rattle.std.specs.Prelude.{◌≡◌, ◌≤◌, ◌<◌, ◌+◌, ◌-◌, ◌^◌, min, [], ◌∷◌, ◌++◌, List, length, take, IfOk, IsErrOf, Some, None, Ok};
ghost use Rattle.std.specs.Io.{ReadsAtMost};
ghost use Rattle.te_ports.specs.Calls.{SystemCall, system_call, reads, bytes_read, read_into};
ghost use Rattle.te_ports.specs.OpenFiles.{name_bytes, telling, ReadsAt};
ghost use Rattle.te_ports.specs.declared.disk.OpenFile.{OpenFile};
ghost use Rattle.std.specs.declared.io.Error.{Error as IoError};

use crate::{Call, FileName, Log, SystemFault};
use std::fs;
use std::io::{self, Read, Seek, SeekFrom};
use std::rt::Files;

/// Files by their names, and what the system answers.
pub trait Disk {
    /// The calls of the system, and what it answered.
    ghost calls: { Self → List SystemCall };

    /// Asks the system once.
    fn read_once(&mut self, name: &str, at: u64, buf: &mut [u8]) -> Result<usize, SystemFault>
        ensures bound { ReadsAtMost result buf.new }
        ensures called { calls self.new ≡ calls self.old ++ read_into name.now at result buf.new ∷ [] };
}

/// A read into a buffer, as a call: its bytes, or its fault.
pub fn read_call<'a>(
    name: &'a str,
    at: u64,
    buf: &'a [u8],
    answer: &Result<usize, SystemFault>,
) -> Call<'a>
    requires { ReadsAtMost answer.now buf.now }
    ensures { system_call result ≡ read_into name.now at answer.now buf.now }
{
    Call::Read {
        name,
        at,
        room: buf.len(),
        answer: match answer {
            Ok(count) => Ok(&buf[..*count]),
            Err(fault) => Err(*fault),
        },
    }
}

/// An open file under its name, and where its next read begins that goes nowhere first.
#[derive(Drop)]
pub struct OpenFile<F: Read + Seek + Drop> {
    name: FileName,
    file: F,
    next: u64,
}

impl<F: Read + Seek + Drop> OpenFile<F> {
    /// The file of this name, which nobody has read from.
    pub fn new(name: FileName, file: F) -> Self
        ensures name { result.name ≡ name }
        ensures file { result.file ≡ file }
        ensures start { result.next ≡ 0 }
    {
        OpenFile {
            name,
            file,
            next: 0,
        }
    }

    /// Reads once, and goes to the place first only where the last read did not end there. An error is the file's own, of the
    /// move or of the read.
    ///
    /// The bytes are the next that the file has left, where it tells them, and where it tells its place it went to that one. After
    /// an error the next read begins at the place of this one, or where it would have begun before if the move failed.
    pub fn read_at(&mut self, at: u64, buf: &mut [u8]) -> io::Result<usize>
        ensures bound { ReadsAtMost result buf.new }
        ensures name { self.new.name ≡ self.old.name }
        ensures next { IfOk result (λ n. self.new.next ≡ min (at + n) (2 ^ 64 - 1)) }
        ensures reads { ReadsAt (telling F.remaining F.stream_position F.stream_bytes) self.old.next self.new.next
            self.old.file self.new.file at result buf.new }
    {
        if self.next != at {
            self.file.seek(SeekFrom::Start(at))?;
            self.next = at;
        }
        let count = self.file.read(buf)?;
        self.next = at.saturating_add(count as u64);
        Ok(count)
    }
}

/// The files that a runtime reaches. The file of the last name stays open until another name is read, or a read failed. Keeping
/// the name takes no memory: one that is longer than any that the system opens fails as the system's own `open` does. The standard
/// library's `open` takes memory for a name; where that is short, the read has failed.
///
/// No clause says what a call of the system does. So `ask` and what it calls have to be read: that `read_once`, which notes what
/// `ask` answered, notes a read of that file at that place. Of that the clauses say that a file which stands open under the name is
/// read on, and that a file which tells its bytes or its place gave the next of them, or went to that place. They cannot say which
/// file `fs::open` opens; nor, since a file of the system tells neither, what it has left or where it stands; nor of any file what
/// it has left once it went to another place. An `open` that a signal interrupts the standard library makes again each time,
/// and not a hundred times.
#[derive(Drop)]
pub struct SystemDisk<R: Files + Drop> {
    files: R,
    last: Option<OpenFile<R::File>>,
    log: Log,
}

impl<R: Files + Drop> SystemDisk<R> {
    /// No file is open yet.
    pub fn new(files: R) -> Self
        ensures files { result.files ≡ files }
        ensures nothing_open { result.last ≡ None }
        ensures nothing_read { result.log.calls ≡ [] }
    {
        SystemDisk {
            files,
            last: None,
            log: Log::new(),
        }
    }

    fn open(&self, name: &str) -> io::Result<OpenFile<R::File>>
        ensures name { IfOk result (λ file. name_bytes file.name ≡ name.now) }
        ensures start { IfOk result (λ file. file.next ≡ 0) }
    {
        match FileName::new(name) {
            Some(kept) => Ok(OpenFile::new(kept, fs::open(&self.files, name)?)),
            None => Err(io::Error::from(io::ErrorKind::InvalidFilename)),
        }
    }

    fn last_or_open(&mut self, name: &str) -> io::Result<OpenFile<R::File>>
        ensures name { IfOk result (λ file. name_bytes file.name ≡ name.now) }
        ensures last { (file : OpenFile R.File) → self.old.last ≡ Some file → name_bytes file.name ≡ name.now → result ≡ Ok file }
        ensures taken { self.new.last ≡ None }
        ensures log { self.new.log.calls ≡ self.old.log.calls }
    {
        match self.last.take() {
            Some(file) if file.name.is(name) => Ok(file),
            _ => self.open(name),
        }
    }

    // Reads once from the file of this name, which stays open unless the read failed. One that stands open under the name is read
    // on, and not opened again.
    fn ask(&mut self, name: &str, at: u64, buf: &mut [u8]) -> Result<usize, SystemFault>
        ensures bound { ReadsAtMost result buf.new }
        ensures kept { IfOk result (λ n. (file : OpenFile R.File) × (self.new.last ≡ Some file) × (name_bytes file.name ≡ name.now) ×
            (file.next ≡ min (at + n) (2 ^ 64 - 1))) }
        ensures reads { IfOk result (λ n. (old : OpenFile R.File) → (new : OpenFile R.File) → self.old.last ≡ Some old → self.new.last ≡ Some new →
            name_bytes old.name ≡ name.now → ReadsAt {E = IoError} (telling R.File.remaining R.File.stream_position R.File.stream_bytes)
            old.next new.next old.file new.file at (Ok n) buf.new) }
        ensures closed { IsErrOf result SystemFault.Failed → self.new.last ≡ None }
        ensures log { self.new.log.calls ≡ self.old.log.calls }
    {
        let mut file = self.last_or_open(name)?;
        match file.read_at(at, buf) {
            Ok(count) => {
                self.last = Some(file);
                Ok(count)
            }
            Err(error) => {
                let fault = SystemFault::from(error);
                if fault == SystemFault::Interrupted {
                    self.last = Some(file);
                }
                Err(fault)
            }
        }
    }
}

impl<R: Files + Drop> Disk for SystemDisk<R> {
    ghost calls = { λ d. d.log.calls };

    fn read_once(&mut self, name: &str, at: u64, buf: &mut [u8]) -> Result<usize, SystemFault> {
        let answer = self.ask(name, at, buf);
        self.log = self.log.then(&read_call(name, at, buf, &answer));
        answer
    }
}
