//! Calls of the program over files and sinks in memory, and what they leave.
ghost use Rattle.std.specs.Prelude.{◌≤◌};

use std::alloc::Global;
use std::env::Args;
use std::io;
use std::process::Abort;
use std::test::Fail;
use te_command::{run, serve};
use te_ports::{Depot, Entry, MemDepot, MemSink, RecordDepot};

/// The texts of files, each in parts. A file without parts is not there.
pub type Files<'a> = &'a [&'a [&'a str]];

/// Files in the order in which they are read, how many of them are read from their start to their end, the status, and the text
/// that is left: in `out` at 0 and 1, and else in `err`.
pub type Row<'a> = (Files<'a>, usize, u8, &'a str);

/// The words of a command, and the names of its files.
#[derive(Clone, Copy)]
pub struct Command<'a> {
    pub words: &'a [&'a str],
    pub names: &'a [&'a str],
    /// What it writes at 0 is a certificate, to which `check` says yes.
    pub publishes: bool,
}

pub const CHECK: Command<'static> = Command {
    words: &["check", "c"],
    names: &["c"],
    publishes: false,
};

pub const CHECK_NETWORK: Command<'static> = Command {
    words: &["check", "c", "t"],
    names: &["c", "t"],
    publishes: false,
};

pub const CHECK_WITNESS: Command<'static> = Command {
    words: &["check-witness", "c", "w"],
    names: &["c", "w"],
    publishes: false,
};

pub const ATTACK: Command<'static> = Command {
    words: &["attack", "c"],
    names: &["c"],
    publishes: false,
};

pub const CHALLENGE: Command<'static> = Command {
    words: &["challenge", "c"],
    names: &["c"],
    publishes: false,
};

pub const CONVERT: Command<'static> = Command {
    words: &["convert", "c"],
    names: &["c"],
    publishes: false,
};

pub const LINK_BOUNDS: Command<'static> = Command {
    words: &["bounds", "c"],
    names: &["c"],
    publishes: false,
};

pub const REPRICE: Command<'static> = Command {
    words: &["reprice", "c", "t"],
    names: &["c", "t"],
    publishes: false,
};

pub const TIGHTEN: Command<'static> = Command {
    words: &["tighten", "c"],
    names: &["c"],
    publishes: true,
};

pub const UPDATE: Command<'static> = Command {
    words: &["update", "o", "n", "m"],
    names: &["o", "n", "m"],
    publishes: false,
};

pub const PROTECT: Command<'static> = Command {
    words: &["protect", "c", "m", "0"],
    names: &["c", "m"],
    publishes: false,
};

pub const CHECK_RATES: Command<'static> = Command {
    words: &["check-rates", "c", "m", "r"],
    names: &["c", "m", "r"],
    publishes: false,
};

pub const BOUND_HOSE: Command<'static> = Command {
    words: &["hose", "c", "b"],
    names: &["c", "b"],
    publishes: false,
};

pub const CHECK_HOSE: Command<'static> = Command {
    words: &["check-hose", "c", "h"],
    names: &["c", "h"],
    publishes: false,
};

pub const PUBLISH: Command<'static> = Command {
    words: &["publish", "p"],
    names: &["p", "t", "m"],
    publishes: true,
};

pub const RUN: Command<'static> = Command {
    words: &["run", "p"],
    names: &["p", "t", "m", "f"],
    publishes: false,
};

pub const LINKS: Command<'static> = Command {
    words: &["links", "p", "1"],
    names: &["p", "t", "m", "f"],
    publishes: false,
};

pub const PAIRS: Command<'static> = Command {
    words: &["pairs", "p", "1"],
    ..LINKS
};

pub const PATHS: Command<'static> = Command {
    words: &["paths", "p", "1"],
    ..LINKS
};

pub const SIMULATE: Command<'static> = Command {
    words: &["simulate", "c", "p"],
    names: &["c", "p", "t", "m"],
    publishes: false,
};

/// A network of two nodes is drawn, and no file is read.
pub const GENERATE: Command<'static> = Command {
    words: &["gen", "2", "0"],
    names: &[],
    publishes: false,
};

/// A call, and what it leaves.
#[derive(Clone, Copy)]
pub struct Call<'a> {
    pub command: Command<'a>,
    pub files: Files<'a>,
    pub read: usize,
    pub status: u8,
    /// All that stands in `out`, or a text in the certificate that is published.
    pub out: &'a str,
    pub err: &'a str,
}

/// What a call left.
#[derive(Drop)]
pub struct Outcome {
    pub status: u8,
    pub out: MemSink,
    pub err: MemSink,
}

/// The call of a row.
pub fn says<'a>(command: Command<'a>, row: Row<'a>) -> Call<'a> {
    let (files, read, status, text) = row;
    let answers = status <= 1;
    Call {
        command,
        files,
        read,
        status,
        out: if answers { text } else { "" },
        err: if answers { "" } else { text },
    }
}

fn add_file(alloc: Global, depot: &mut MemDepot, name: &str, parts: &[&str]) -> Result<(), Fail> {
    if parts.is_empty() {
        return Ok(());
    }
    let text = parts.concat(alloc)?;
    Ok(depot.add(name, text.as_bytes())?)
}

fn add_files(
    alloc: Global,
    depot: &mut MemDepot,
    names: &[&str],
    files: Files<'_>,
) -> Result<(), Fail> {
    for place in 0..names.len() {
        if place < files.len() {
            add_file(alloc, depot, names[place], files[place])?;
        }
    }
    Ok(())
}

/// The files that are there, which are given in pieces of so many bytes.
pub fn depot_of(
    alloc: Global,
    names: &[&str],
    files: Files<'_>,
    piece: usize,
) -> Result<MemDepot, Fail>
    requires { 1 ≤ piece }
{
    let mut depot = MemDepot::new(alloc, piece)?;
    add_files(alloc, &mut depot, names, files)?;
    Ok(depot)
}

/// The files of the call, in pieces of so many bytes.
pub fn depot_for(alloc: Global, call: &Call<'_>, piece: usize) -> Result<MemDepot, Fail>
    requires { 1 ≤ piece }
{
    depot_of(alloc, call.command.names, call.files, piece)
}

/// An `out` with room for what any call here writes, which takes 4 bytes at once.
pub fn large_out(alloc: Global) -> Result<MemSink, Fail> {
    Ok(MemSink::new(alloc, 2000, 4)?)
}

pub fn strings_of(alloc: Global, words: &[&str]) -> Result<Vec<String>, Fail> {
    let mut all = Vec::new(alloc);
    for word in words {
        all.push(String::from_str(alloc, word)?)?;
    }
    Ok(all)
}

/// What the words leave over this depot, in an `out` and an `err` with so much room.
pub fn outcome_of<D: Depot>(
    alloc: Global,
    words: &[&str],
    depot: &mut D,
    mut out: MemSink,
    room_of_err: usize,
) -> Result<Outcome, Fail> {
    let mut err = MemSink::new(alloc, room_of_err, 200)?;
    let words = strings_of(alloc, words)?;
    let status = run(alloc, &words, depot, &mut out, &mut err);
    Ok(Outcome { status, out, err })
}

/// What these arguments leave over this depot.
pub fn outcome_of_arguments<D: Depot>(
    alloc: Global,
    arguments: io::Result<Args>,
    depot: &mut D,
) -> Result<Outcome, Fail> {
    let mut out = MemSink::new(alloc, 200, 4)?;
    let mut err = MemSink::new(alloc, 200, 200)?;
    let status = serve(alloc, arguments, depot, &mut out, &mut err);
    Ok(Outcome { status, out, err })
}

/// What `check` leaves of the certificate.
fn outcome_of_check(alloc: Global, certificate: &str) -> Result<Outcome, Fail> {
    let mut depot = MemDepot::new(alloc, 64)?;
    depot.add("c", certificate.as_bytes())?;
    let out = MemSink::new(alloc, 200, 4)?;
    outcome_of(alloc, CHECK.words, &mut depot, out, 200)
}

/// `check` says yes to what was published, and this text stands in it.
fn is_certificate_with(alloc: Global, out: &[u8], part: &str) -> Result<bool, Fail> {
    let text = str::from_utf8(out)?;
    let left = outcome_of_check(alloc, text)?;
    Ok(text.contains(part) & (left.status == 0))
}

/// The call left what it has to.
pub fn is_due(alloc: Global, call: &Call<'_>, left: &Outcome) -> Result<bool, Fail> {
    let is_told = (left.status == call.status) & (left.err.bytes() == call.err.as_bytes());
    let out = left.out.bytes();
    if call.command.publishes & (call.status == 0) {
        return Ok(is_told & is_certificate_with(alloc, out, call.out)?);
    }
    Ok(is_told & (out == call.out.as_bytes()))
}

/// The call over this depot leaves what it has to.
pub fn leaves_over<D: Depot>(alloc: Global, call: &Call<'_>, depot: &mut D) -> Result<bool, Fail> {
    let out = large_out(alloc)?;
    let left = outcome_of(alloc, call.command.words, depot, out, 200)?;
    is_due(alloc, call, &left)
}

/// The call over files that are told, in pieces of so many bytes, leaves what it has to.
fn leaves_over_told(alloc: Global, call: &Call<'_>, piece: usize) -> Result<bool, Fail>
    requires { 1 ≤ piece }
{
    let mut depot = depot_for(alloc, call, piece)?;
    leaves_over(alloc, call, &mut depot)
}

/// The call over these files leaves what it has to, and reads what it has to.
fn leaves_on_record(
    alloc: Global,
    call: &Call<'_>,
    depot: &mut RecordDepot<MemDepot>,
) -> Result<bool, Fail> {
    Ok(leaves_over(alloc, call, depot)? && are_reads_of(alloc, call, depot.reads())?)
}

/// The call over files that are not told, of which the reads are on record.
fn leaves_over_record(alloc: Global, call: &Call<'_>) -> Result<bool, Fail> {
    let mut depot = RecordDepot::new(alloc, depot_for(alloc, call, 64)?);
    leaves_on_record(alloc, call, &mut depot)
}

/// The read gave bytes of the text, or nothing at its end.
fn is_piece_of(text: &[u8], read: &Entry) -> bool {
    let rest = text.get(read.at as usize..).unwrap_or(&[]);
    rest.starts_with(&read.bytes) & (read.bytes.is_empty() == rest.is_empty())
}

fn is_read_of(alloc: Global, parts: &[&str], read: &Entry) -> Result<bool, Fail> {
    let text = parts.concat(alloc)?;
    Ok(is_piece_of(text.as_bytes(), read))
}

/// The read gave bytes of the file at this place of those of the call, or nothing at its end.
fn is_read_at(alloc: Global, call: &Call<'_>, place: usize, read: &Entry) -> Result<bool, Fail> {
    let (names, files) = (call.command.names, call.files);
    if place >= names.len() || place >= files.len() {
        return Ok(false);
    }
    Ok((read.name.as_str() == names[place]) & is_read_of(alloc, files[place], read)?)
}

/// Each read begins where the read before ended: at the start of a file where that gave nothing.
pub fn follow_each_other(reads: &[Entry]) -> bool {
    let mut at: u64 = 0;
    for read in reads {
        if read.at != at {
            return false;
        }
        at = match read.bytes.len() as u64 {
            0 => 0,
            count => at.saturating_add(count),
        };
    }
    true
}

/// The reads gave the files that the call reads, each from its start to its end, in order, and nothing of a file that cannot be read.
fn are_reads_of(alloc: Global, call: &Call<'_>, reads: &[Entry]) -> Result<bool, Fail> {
    let mut read_files: usize = 0;
    let mut is_between_files = true;
    for read in reads {
        if !is_read_at(alloc, call, read_files, read)? {
            return Ok(false);
        }
        is_between_files = read.bytes.is_empty();
        if is_between_files {
            read_files = read_files.saturating_add(1);
        }
    }
    let are_whole = is_between_files | (call.status == 4);
    Ok((read_files == call.read) & are_whole & follow_each_other(reads))
}

/// Makes the call over files that are told, and again over files of which the reads are on record.
fn leaves(rt: &impl Abort, alloc: Global, call: &Call<'_>) -> Result<(), Fail> {
    let holds = leaves_over_told(alloc, call, 64)? && leaves_over_record(alloc, call)?;
    let (out, err) = (call.out, call.err);
    assert!(rt; holds, "{out}{err}");
    Ok(())
}

/// Makes the call over files that are told and on record, and again over files that are given byte by byte.
pub fn says_each_way(rt: &impl Abort, alloc: Global, call: &Call<'_>) -> Result<(), Fail> {
    leaves(rt, alloc, call)?;
    let (out, err) = (call.out, call.err);
    assert!(rt; leaves_over_told(alloc, call, 1)?, "{out}{err}");
    Ok(())
}

/// Makes the call of each command and row, each way.
pub fn all_say(
    rt: &impl Abort,
    alloc: Global,
    calls: &[(Command<'_>, Row<'_>)],
) -> Result<(), Fail> {
    for (command, row) in calls {
        says_each_way(rt, alloc, &says(*command, *row))?;
    }
    Ok(())
}
