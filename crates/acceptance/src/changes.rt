//! Files that change while they are read, and files without an end. What is answered is what the reads on record gave.
use crate::call::{
    CHECK, Call, Command, Files, PUBLISH, Row, depot_of, follow_each_other, leaves_over, says,
};
use crate::texts::{SMALLEST, SMALLEST_HEAD, SMALLEST_WITH_LESS};
use std::alloc::Global;
use std::process::Abort;
use std::test::Fail;
use te_ports::{Depot, Entry, Failed, Log, MemDepot, RecordDepot, read_call};

/// Files of which each read finds the next version. The last version stays.
#[derive(Drop)]
struct ChangingDepot {
    versions: Vec<MemDepot>,
    reads: usize,
    faults: u64,
    log: Log,
}

impl Depot for ChangingDepot {
    ghost use Rattle.std.specs.Prelude.{None};
    ghost use Rattle.te_ports.specs.Calls.{reads_of};

    ghost content = { λ _ _. None };

    ghost faults = { λ d _. d.faults };

    ghost gave = { λ d. reads_of d.log.calls };

    fn fetch(&mut self, name: &str, at: u64, buf: &mut [u8]) -> Result<usize, Failed> {
        let version = self.reads.min(self.versions.len().saturating_sub(1));
        self.reads = self.reads.saturating_add(1);
        if let Some(depot) = self.versions.get_mut(version) {
            if let Ok(count) = depot.fetch(name, at, buf) {
                self.log = self.log.then(&read_call(name, at, buf, &Ok(count)));
                return Ok(count);
            }
        }
        self.faults = self.faults.saturating_add(1);
        Err(Failed)
    }
}

/// Files without an end: each read leaves the room as it is, and says that it is full.
#[derive(Drop)]
struct EndlessDepot {
    faults: u64,
    log: Log,
}

impl Depot for EndlessDepot {
    ghost use Rattle.std.specs.Prelude.{None};
    ghost use Rattle.te_ports.specs.Calls.{reads_of};

    ghost content = { λ _ _. None };

    ghost faults = { λ d _. d.faults };

    ghost gave = { λ d. reads_of d.log.calls };

    fn fetch(&mut self, name: &str, at: u64, buf: &mut [u8]) -> Result<usize, Failed> {
        let count = buf.len();
        self.log = self.log.then(&read_call(name, at, buf, &Ok(count)));
        Ok(count)
    }
}

fn add_read(depot: &mut MemDepot, bytes: &mut Vec<u8>, read: &Entry) -> Result<(), Fail> {
    bytes.extend_from_slice(&read.bytes)?;
    if read.bytes.is_empty() {
        depot.add(&read.name, bytes)?;
        bytes.clear();
    }
    Ok(())
}

fn add_files_on_record(alloc: Global, depot: &mut MemDepot, reads: &[Entry]) -> Result<(), Fail> {
    let mut bytes: Vec<u8> = Vec::new(alloc);
    for read in reads {
        add_read(depot, &mut bytes, read)?;
    }
    Ok(())
}

/// The files that the reads gave, each to its end. A file that was not read to its end is not there.
fn files_on_record(alloc: Global, reads: &[Entry]) -> Result<MemDepot, Fail> {
    let mut depot = MemDepot::new(alloc, 64)?;
    add_files_on_record(alloc, &mut depot, reads)?;
    Ok(depot)
}

const SPF: &str = "{\"topology\":\"t\",\"matrices\":\"m\",\"publish\":\"spf\"}";

/// A demand from a to c.
const DEMAND: &str = "step,source,target,demand\n0,a,c,1\n";

/// A command, the versions of its files at one read after the other, and the status and text that they leave.
type Change<'a> = (Command<'a>, &'a [Files<'a>], Row<'a>);

/// A read gives at most 64 bytes, and the ratio of a certificate stands in its second piece.
const CHANGES: &[Change<'static>] = &[
    // The file is replaced by another, either way.
    (
        CHECK,
        &[&[&[SMALLEST]], &[SMALLEST_WITH_LESS]],
        (&[], 0, 1, "no link 0 rule I4 place 0\n"),
    ),
    (
        CHECK,
        &[&[SMALLEST_WITH_LESS], &[&[SMALLEST]]],
        (&[], 0, 0, "yes ratio 1000000 set all\n"),
    ),
    // It is replaced by a shorter one, and back: the last byte is read twice.
    (
        CHECK,
        &[&[&[SMALLEST]], &[SMALLEST_WITH_LESS], &[&[SMALLEST]]],
        (&[], 0, 3, "refused: c: shape at line 17\n"),
    ),
    // It grows.
    (
        CHECK,
        &[&[&[SMALLEST_HEAD]], &[&[SMALLEST]]],
        (&[], 0, 0, "yes ratio 1000000 set all\n"),
    ),
    // It is cut, written late, or deleted.
    (
        CHECK,
        &[&[&[SMALLEST]], &[&[""]]],
        (&[], 0, 3, "refused: c: shape at line 9\n"),
    ),
    (
        CHECK,
        &[&[&[""]], &[&[SMALLEST]]],
        (&[], 0, 3, "refused: c: shape at line 1\n"),
    ),
    (CHECK, &[&[&[SMALLEST]], &[]], (&[], 0, 4, "fault: read\n")),
    // The topology is replaced once the plan is read: the way from a to c is gone.
    (
        PUBLISH,
        &[
            &[&[SPF]],
            &[
                &[SPF],
                &["source,target,capacity,cost\na,b,10,1\nb,c,10,1\n"],
            ],
            &[
                &[],
                &["source,target,capacity,cost\na,b,10,1\nc,b,10,1\n"],
                &[DEMAND],
            ],
        ],
        (&[], 0, 7, "no path: a c\n"),
    ),
];

fn versions_of(
    alloc: Global,
    names: &[&str],
    all_files: &[Files<'_>],
) -> Result<Vec<MemDepot>, Fail> {
    let mut versions = Vec::new(alloc);
    for files in all_files {
        versions.push(depot_of(alloc, names, files, 64)?)?;
    }
    Ok(versions)
}

/// The same files at each read, in pieces of these sizes.
fn versions_in_pieces(
    alloc: Global,
    names: &[&str],
    files: Files<'_>,
    sizes: &[usize],
) -> Result<Vec<MemDepot>, Fail> {
    let mut versions = Vec::new(alloc);
    for size in sizes {
        versions.push(depot_of(alloc, names, files, (*size).max(1))?)?;
    }
    Ok(versions)
}

/// Files of these versions, of which the reads are on record.
fn changing_files(alloc: Global, versions: Vec<MemDepot>) -> RecordDepot<ChangingDepot> {
    let changing = ChangingDepot {
        versions,
        reads: 0,
        faults: 0,
        log: Log::new(),
    };
    RecordDepot::new(alloc, changing)
}

/// The call leaves what it has to over the files that the reads gave.
fn leaves_over_reads(alloc: Global, call: &Call<'_>, reads: &[Entry]) -> Result<bool, Fail> {
    let mut depot = files_on_record(alloc, reads)?;
    Ok(follow_each_other(reads) && leaves_over(alloc, call, &mut depot)?)
}

/// The call leaves what it has to over these files, and again over what the reads gave.
fn answers_reads(
    alloc: Global,
    call: &Call<'_>,
    depot: &mut RecordDepot<ChangingDepot>,
) -> Result<bool, Fail> {
    Ok(leaves_over(alloc, call, depot)? && leaves_over_reads(alloc, call, depot.reads())?)
}

fn is_answered(alloc: Global, change: Change<'_>) -> Result<bool, Fail> {
    let (command, all_files, row) = change;
    let versions = versions_of(alloc, command.names, all_files)?;
    let mut depot = changing_files(alloc, versions);
    answers_reads(alloc, &says(command, row), &mut depot)
}

fn all_are_answered(rt: &impl Abort, alloc: Global, changes: &[Change<'_>]) -> Result<(), Fail> {
    for change in changes {
        let text = change.2.3;
        assert!(rt; is_answered(alloc, *change)?, "{text}");
    }
    Ok(())
}

#[test]
fn what_reads_gave_is_answered(rt: HostRuntime) -> Result<(), Fail> {
    all_are_answered(&rt, rt.alloc(), CHANGES)
}

/// The first read gives one byte, and the next ones more or less, as those of a pipe.
fn is_answered_in_pieces(alloc: Global, row: Row<'_>) -> Result<bool, Fail> {
    let versions = versions_in_pieces(alloc, CHECK.names, row.0, &[1, 40, 7, 64])?;
    let mut depot = changing_files(alloc, versions);
    answers_reads(alloc, &says(CHECK, row), &mut depot)
}

#[test]
fn pieces_of_a_file_are_of_any_size(rt: HostRuntime) -> Result<(), Fail> {
    let row: Row<'_> = (&[&[SMALLEST]], 1, 0, "yes ratio 1000000 set all\n");
    let answered = is_answered_in_pieces(rt.alloc(), row)?;
    assert!(rt; answered);
    Ok(())
}

/// The command says that its file is too long where that has no end.
fn is_too_long(alloc: Global, word: &str) -> Result<bool, Fail> {
    let words = [word, "f"];
    let command = Command {
        words: &words,
        ..CHECK
    };
    let mut depot = EndlessDepot {
        faults: 0,
        log: Log::new(),
    };
    let call = says(command, (&[], 0, 3, "refused: f: too long\n"));
    leaves_over(alloc, &call, &mut depot)
}

#[test]
fn a_file_without_an_end_is_too_long(rt: HostRuntime) -> Result<(), Fail> {
    assert!(rt; is_too_long(rt.alloc(), "publish")?, "publish");
    assert!(rt; is_too_long(rt.alloc(), "check")?, "check");
    Ok(())
}
