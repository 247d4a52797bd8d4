//! Each public call once, with ample memory.
ghost use Rattle.std.specs.Prelude.{◌≤◌, if◌then◌else◌, nat_eq, slice_index_or};

use crate::cases::{Case, all_hold};
use std::alloc::{AllocError, Global};
use std::cell::Cell;
use std::io::{self, Cursor, ErrorKind, Read, Seek, SeekFrom, Write};
use std::process::Abort;
use te_ports::*;

// Gives the file another text and then this one. The read of that number fails.
fn fill(files: &mut MemDepot, text: &str, failing: u64) -> Result<(), AllocError> {
    files.add("file", b"other")?;
    files.add("file", text.as_bytes())?;
    files.fail_at(failing)
}

// A depot that gives the text of one file in pieces of so many bytes. The file had another text before, and the read of
// that number fails.
fn file_of(alloc: Global, text: &str, piece: usize, failing: u64) -> Result<MemDepot, AllocError>
    requires { 1 ≤ piece }
{
    let mut files = MemDepot::new(alloc, piece)?;
    fill(&mut files, text, failing)?;
    Ok(files)
}

// The same depot, which records its reads.
fn record_of(
    alloc: Global,
    text: &str,
    piece: usize,
    failing: u64,
) -> Result<RecordDepot<MemDepot>, AllocError>
    requires { 1 ≤ piece }
{
    let files = file_of(alloc, text, piece, failing)?;
    Ok(RecordDepot::new(alloc, files))
}

// Whether a file is loaded as this text, or why it is not loaded.
fn loads_as(
    alloc: Global,
    depot: &mut impl Depot,
    name: &str,
    limit: u8,
    text: &str,
) -> Result<bool, LoadFault> {
    let bytes = load(alloc, depot, name, u64::from(limit))?;
    Ok(bytes.as_slice() == text.as_bytes())
}

// Loads of a depot, one after another: the name of a file, the limit, the text, and the answer.
const LOADS: &[(&str, u8, &str, Result<bool, LoadFault>)] = &[
    // The whole file by four reads, one byte more than the limit by three, and no file by one.
    ("file", 5, "bytes", Ok(true)),
    ("file", 4, "", Err(LoadFault::TooLong)),
    ("none", 4, "", Err(LoadFault::Failed)),
    // The second read of the next load, which is number 9, fails, and none after it.
    ("file", 5, "", Err(LoadFault::Failed)),
    ("file", 5, "bytes", Ok(true)),
];

fn all_are_loaded(rt: &impl Abort, alloc: Global, depot: &mut MemDepot) {
    for row in LOADS {
        let (name, limit, text, answer) = *row;
        let found = loads_as(alloc, depot, name, limit, text);
        assert!(rt; found == answer, "{name} {limit}");
    }
}

#[test]
fn files_are_loaded_up_to_a_limit(rt: HostRuntime) {
    let mut depot = file_of(rt.alloc(), "bytes", 2, 9).expect(&rt, "a file in memory");
    all_are_loaded(&rt, rt.alloc(), &mut depot);
}

// Whether a file that is added is loaded as it is, and one that is not known as empty.
fn loads_every_file(alloc: Global, depot: &mut SureDepot) -> bool {
    let added = depot.add("file", b"bytes").is_ok();
    let known = loads_as(alloc, depot, "file", 5, "bytes") == Ok(true);
    let unknown = loads_as(alloc, depot, "none", 0, "") == Ok(true);
    added & known & unknown
}

#[test]
fn every_file_of_a_depot_without_faults_is_loaded(rt: HostRuntime) {
    let mut depot = SureDepot::new(rt.alloc()).expect(&rt, "files in memory");
    let loaded = loads_every_file(rt.alloc(), &mut depot);
    assert!(rt; loaded);
}

// Whether a read of the file gave this text at this place.
fn is_read_of_file(read: &Entry, at: u64, text: &str) -> bool {
    let is_text = read.bytes.as_slice() == text.as_bytes();
    is_text & (read.at == at) & (read.name.as_str() == "file")
}

// Whether these are four reads of the file, from its start to its end.
fn are_reads_of_file(reads: &[Entry]) -> bool {
    match reads {
        [first, second, third, end] => {
            let starts = is_read_of_file(first, 0, "by") & is_read_of_file(second, 2, "te");
            starts & is_read_of_file(third, 4, "s") & is_read_of_file(end, 5, "")
        }
        _ => false,
    }
}

// Whether a read fails, one into no room gives nothing, and four reads are then on record.
fn two_more_are_no_reads(depot: &mut RecordDepot<MemDepot>) -> bool {
    let failed = depot.fetch("file", 0, &mut [0; 2]) == Err(Failed);
    let nothing = depot.fetch("file", 0, &mut []) == Ok(0);
    failed & nothing & (depot.reads().len() == 4)
}

// Whether the file is loaded, the record holds it from its start to its end, and no more.
fn is_recorded(alloc: Global, depot: &mut RecordDepot<MemDepot>) -> bool {
    let loaded = loads_as(alloc, depot, "file", 5, "bytes") == Ok(true);
    let recorded = are_reads_of_file(depot.reads());
    loaded & recorded & two_more_are_no_reads(depot)
}

#[test]
fn a_record_holds_a_file_from_its_start_to_its_end(rt: HostRuntime) {
    let mut depot = record_of(rt.alloc(), "bytes", 2, 4).expect(&rt, "a file in memory");
    let recorded = is_recorded(rt.alloc(), &mut depot);
    assert!(rt; recorded);
}

// Three bytes, or six for a file whose second byte is `!`.
struct BySecond;

impl Limit for BySecond {
    ghost allowed = { λ _ bytes. if nat_eq (slice_index_or bytes 1 0) 33 then 6 else 3 };

    fn allowed(&self, bytes: &[u8]) -> u64 {
        match bytes.get(1) {
            Some(b'!') => 6,
            _ => 3,
        }
    }
}

// Where the reads end, if each begins where the one before it ended.
fn end_of_reads(reads: &[Entry]) -> Option<u64> {
    let mut end = 0;
    for read in reads {
        if read.at != end {
            return None;
        }
        end = read.at.saturating_add(read.bytes.len() as u64);
    }
    Some(end)
}

// Whether the file is loaded as this text, or why it is not loaded.
fn loads_within(
    alloc: Global,
    depot: &mut RecordDepot<MemDepot>,
    text: &str,
) -> Result<bool, LoadFault> {
    let bytes = load_within(alloc, depot, "file", &BySecond)?;
    Ok(bytes.as_slice() == text.as_bytes())
}

// A file, whether it is loaded, and where its reads end, which is one byte past the limit at the latest.
struct Limited<'a>(&'a str, Result<bool, LoadFault>, u64);

const LIMITS: &[Limited] = &[
    Limited("", Ok(true), 0),
    Limited("a", Ok(true), 1),
    Limited("abc", Ok(true), 3),
    Limited("abcdefgh", Err(LoadFault::TooLong), 4),
    Limited("!bcdefgh", Err(LoadFault::TooLong), 4),
    Limited("a!cdef", Ok(true), 6),
    Limited("a!cdefgh", Err(LoadFault::TooLong), 7),
];

// Whether the file of a row in pieces of so many bytes is loaded as it is, or is not loaded for its cause, and its reads end
// there.
fn is_loaded_in_pieces(alloc: Global, piece: usize, row: &Limited) -> Result<bool, AllocError>
    requires { 1 ≤ piece }
{
    let mut depot = record_of(alloc, row.0, piece, u64::MAX)?;
    let loaded = loads_within(alloc, &mut depot, row.0) == row.1;
    Ok(loaded & (end_of_reads(depot.reads()) == Some(row.2)))
}

impl Case for Limited<'_> {
    fn holds(&self, alloc: Global) -> bool {
        let by_one = is_loaded_in_pieces(alloc, 1, self) == Ok(true);
        let by_two = is_loaded_in_pieces(alloc, 2, self) == Ok(true);
        by_one & by_two & (is_loaded_in_pieces(alloc, 64, self) == Ok(true))
    }
}

#[test]
fn a_limit_may_hang_on_the_first_bytes(rt: HostRuntime) {
    all_hold(&rt, rt.alloc(), LIMITS);
}

// Whether the text is taken whole, or is not, as is said, and whether the sink then holds these bytes.
fn is_put(sink: &mut MemSink, text: &str, whole: bool, held: &str) -> bool {
    let answer = put_all(sink, text.as_bytes());
    (answer.is_ok() == whole) & (sink.bytes() == held.as_bytes())
}

// A sink with so much room. The call of that number fails.
fn sink_of(alloc: Global, room: usize, failing: u64) -> Result<MemSink, AllocError> {
    let mut sink = MemSink::new(alloc, room, 4)?;
    sink.fail_at(failing)?;
    Ok(sink)
}

// The room, the call that fails, what the sink holds after each text, and whether it takes the last one whole.
struct Filled<'a>(usize, u64, [&'a str; 2], bool);

const SINKS: &[Filled] = &[
    // No room for more than six bytes.
    Filled(6, 99, ["ten by", "ten by"], false),
    // The second call fails, and none after it.
    Filled(10, 1, ["ten ", "ten bytes."], true),
];

// The sink does not take all ten bytes, and takes the last six of them then, or does not.
impl Case for Filled<'_> {
    fn holds(&self, alloc: Global) -> bool {
        let Filled(room, failing, [held_first, held_last], takes_last) = *self;
        match sink_of(alloc, room, failing) {
            Ok(mut sink) => {
                let first = is_put(&mut sink, "ten bytes.", false, held_first);
                first & is_put(&mut sink, "bytes.", takes_last, held_last)
            }
            Err(_) => false,
        }
    }
}

#[test]
fn a_text_is_written_up_to_a_failure_and_as_far_as_there_is_room(rt: HostRuntime) {
    all_hold(&rt, rt.alloc(), SINKS);
}

#[test]
fn a_sink_without_faults_counts_the_bytes(rt: HostRuntime) {
    let mut sink = SureSink::new();
    let put = put_all(&mut sink, b"ten bytes.");
    assert!(rt; put.is_ok() && sink.count() == 10);
}

// A file in memory that gives three bytes a read, after so many reads that a signal interrupts, and counts its seeks.
#[derive(Drop)]
struct SlowFile<'a> {
    bytes: Cursor<&'a [u8]>,
    interrupted: u8,
    seeks: &'a Cell<u8>,
}

impl Read for SlowFile<'_> {
    fn read(&mut self, buf: &mut [u8]) -> io::Result<usize> {
        if self.interrupted > 0 {
            self.interrupted -= 1;
            return Err(io::Error::from(ErrorKind::Interrupted));
        }
        let most = buf.len().min(3);
        self.bytes.read(&mut buf[..most])
    }
}

impl Seek for SlowFile<'_> {
    fn seek(&mut self, to: SeekFrom) -> io::Result<u64> {
        self.seeks.set(self.seeks.get().saturating_add(1));
        self.bytes.seek(to)
    }
}

// The same file under every name.
#[derive(Drop)]
struct OneFile<'a> {
    file: OpenFile<SlowFile<'a>>,
    log: Log,
}

impl Disk for OneFile<'_> {
    ghost calls = { λ d. d.log.calls };

    fn read_once(&mut self, name: &str, at: u64, buf: &mut [u8]) -> Result<usize, SystemFault> {
        let answer = match self.file.read_at(at, buf) {
            Ok(count) => Ok(count),
            Err(error) => Err(SystemFault::from(error)),
        };
        self.log = self.log.then(&read_call(name, at, buf, &answer));
        answer
    }
}

// How many reads a signal interrupts, what the first load answers, and the count of seeks after the second.
struct Interrupted(u8, Result<bool, LoadFault>, u8);

const INTERRUPTED: &[Interrupted] = &[
    Interrupted(0, Ok(true), 1),
    Interrupted(99, Ok(true), 1),
    Interrupted(100, Err(LoadFault::Failed), 0),
];

// Whether the first load of a file gives the answer of the row without a seek, and the second one the text, with so many seeks.
fn loads_twice(
    alloc: Global,
    depot: &mut RealDepot<OneFile<'_>>,
    seeks: &Cell<u8>,
    row: &Interrupted,
) -> bool {
    let first = loads_as(alloc, depot, "file", 10, "ten bytes.") == row.1;
    let without_seek = seeks.get() == 0;
    let second = loads_as(alloc, depot, "file", 10, "ten bytes.") == Ok(true);
    first & without_seek & second & (seeks.get() == row.2)
}

impl Case for Interrupted {
    fn holds(&self, alloc: Global) -> bool {
        let seeks = Cell::new(0);
        let file = SlowFile {
            bytes: Cursor::new(b"ten bytes."),
            interrupted: self.0,
            seeks: &seeks,
        };
        let Some(name) = FileName::new("file") else {
            return false;
        };
        let file = OpenFile::new(name, file);
        let mut depot = RealDepot::over(OneFile {
            file,
            log: Log::new(),
        });
        loads_twice(alloc, &mut depot, &seeks, self)
    }
}

#[test]
fn a_file_is_read_in_order(rt: HostRuntime) {
    all_hold(&rt, rt.alloc(), INTERRUPTED);
}

// A stream that takes so many bytes a write and in all, after so many writes that a signal interrupts.
#[derive(Drop)]
struct SlowStream {
    bytes: Vec<u8>,
    piece: usize,
    room: usize,
    interrupted: u8,
}

impl Write for SlowStream {
    fn write(&mut self, buf: &[u8]) -> io::Result<usize> {
        if self.interrupted > 0 {
            self.interrupted -= 1;
            return Err(io::Error::from(ErrorKind::Interrupted));
        }
        let left = self.room.saturating_sub(self.bytes.len());
        let count = buf.len().min(self.piece).min(left);
        self.bytes.extend_from_slice(&buf[..count])?;
        Ok(count)
    }

    fn flush(&mut self) -> io::Result<()> {
        Ok(())
    }
}

// How many bytes a stream takes at once and in all, how many writes a signal interrupts, and what it then holds.
struct Taken<'a>(usize, usize, u8, &'a str);

const STREAMS: &[Taken] = &[
    Taken(4, 10, 0, "ten bytes."),
    Taken(1, 20, 99, "ten bytes."),
    Taken(4, 6, 0, "ten by"),
    Taken(0, 10, 0, ""),
    Taken(4, 10, 100, ""),
];

// Whether a stream takes these bytes of the text, and says whether they are all of its ten.
fn takes(stream: &mut SlowStream, taken: &str) -> bool {
    let whole = put_all(&mut RealSink::new(&mut *stream), b"ten bytes.").is_ok();
    (whole == (taken.len() == 10)) & (stream.bytes.as_slice() == taken.as_bytes())
}

impl Case for Taken<'_> {
    fn holds(&self, alloc: Global) -> bool {
        let mut stream = SlowStream {
            bytes: Vec::new(alloc),
            piece: self.0,
            room: self.1,
            interrupted: self.2,
        };
        takes(&mut stream, self.3)
    }
}

#[test]
fn a_stream_takes_a_text_in_parts(rt: HostRuntime) {
    all_hold(&rt, rt.alloc(), STREAMS);
}
