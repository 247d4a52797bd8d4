//! A window over files in memory.
ghost use Rattle.std.specs.Prelude.{◌≤◌};

use crate::cases::{Case, all_hold};
use block_reader::{State, Window};
use std::alloc::{AllocError, Global};
use te_ports::{Depot, Entry, MemDepot, RecordDepot};

// How many bytes a window holds, and how many are asked for and passed at once.
const ROOM: usize = 5;

const WANTED: usize = 3;

const STEP: usize = 2;

const TEN_BYTES: &[u8] = b"ten bytes.";

// The number of a read that does not come.
pub(crate) const NEVER: u64 = u64::MAX;

// A file of these bytes, of which reads give so many at once and at least one. The read of that number fails.
pub(crate) fn file_of(
    alloc: Global,
    bytes: &[u8],
    piece: usize,
    failing: u64,
) -> Result<RecordDepot<MemDepot>, AllocError> {
    let mut files = MemDepot::new(alloc, piece.max(1))?;
    files.add("file", bytes)?;
    files.fail_at(failing)?;
    Ok(RecordDepot::new(alloc, files))
}

// Passes the file in steps, and gives what was passed and what became of the file.
fn pass_all<D: Depot>(
    alloc: Global,
    depot: &mut D,
    limit: u8,
) -> Result<(Vec<u8>, State), AllocError> {
    let mut window = Window::new(alloc, ROOM, u64::from(limit))?;
    let mut passed = Vec::new(alloc);
    'steps: for _ in 0..11 {
        window.fill(depot, "file", WANTED);
        let count = window.ready().len().min(STEP);
        passed.extend_from_slice(&window.ready()[..count])?;
        window.pass(count);
    }
    Ok((passed, window.state()))
}

// Whether each read begins where the one before it ended.
fn are_in_order(reads: &[Entry]) -> bool {
    let mut at = 0;
    for read in reads {
        if read.at != at {
            return false;
        }
        at = read.at.saturating_add(read.bytes.len() as u64);
    }
    true
}

// Whether this text of a file is passed, and the file comes to this state.
fn is_passed<D: Depot>(
    alloc: Global,
    depot: &mut D,
    limit: u8,
    text: &str,
    state: State,
) -> Result<bool, AllocError> {
    let (passed, last) = pass_all(alloc, depot, limit)?;
    Ok((passed.as_slice() == text.as_bytes()) & (last == state))
}

// The bytes that reads give at once, the read that fails, the limit, what is passed, and what becomes of the file.
struct Passed<'a>(usize, u64, u8, &'a str, State);

const FILES: &[Passed] = &[
    Passed(1, NEVER, 11, "ten bytes.", State::Ended),
    Passed(2, NEVER, 10, "ten bytes.", State::Ended),
    Passed(64, NEVER, 10, "ten bytes.", State::Ended),
    Passed(1, NEVER, 9, "ten bytes.", State::TooLong),
    Passed(3, NEVER, 8, "ten bytes", State::TooLong),
    Passed(64, NEVER, 0, "t", State::TooLong),
    Passed(3, 0, 10, "", State::Failed),
    Passed(3, 1, 10, "ten", State::Failed),
    Passed(3, 2, 10, "ten b", State::Failed),
    Passed(3, 3, 10, "ten byte", State::Failed),
];

// The reads are in order too.
impl Case for Passed<'_> {
    fn holds(&self, alloc: Global) -> bool {
        let Passed(piece, failing, limit, text, state) = *self;
        match file_of(alloc, TEN_BYTES, piece, failing) {
            Ok(mut depot) => {
                let passed = is_passed(alloc, &mut depot, limit, text, state) == Ok(true);
                passed & are_in_order(depot.reads())
            }
            Err(_) => false,
        }
    }
}

#[test]
fn a_file_is_passed_piece_by_piece(rt: HostRuntime) {
    all_hold(&rt, rt.alloc(), FILES);
}

// Whether a window is in this state and has these bytes ready.
fn is_at(window: &Window, state: State, ready: &str) -> bool {
    (window.state() == state) & (window.ready() == ready.as_bytes())
}

// Whether a window that is opened at the start of a file is drained.
fn is_drained<D: Depot>(alloc: Global, depot: &mut D) -> Result<bool, AllocError> {
    let mut window = Window::at_start(alloc, depot, "file", &10_u64, WANTED, ROOM)?;
    let is_open = is_at(&window, State::Open, "ten ");
    window.drain(depot, "file");
    Ok(is_open & is_at(&window, State::Ended, ""))
}

#[test]
fn a_window_at_the_start_is_drained(rt: HostRuntime) {
    let alloc = rt.alloc();
    let mut depot = file_of(alloc, TEN_BYTES, 2, NEVER).expect(&rt, "a file in memory");
    let drained = is_drained(alloc, &mut depot);
    assert!(rt; drained == Ok(true));
}
