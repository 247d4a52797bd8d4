//! The arguments that the system gives, or why it gives none, and what the program does with them.
use crate::call::{Outcome, outcome_of_arguments, strings_of};
use crate::texts::SMALLEST;
use std::alloc::Global;
use std::env::Args;
use std::io::{self, ErrorKind};
use std::process::Abort;
use std::test::Fail;
use te_ports::{MemDepot, RecordDepot};

/// The arguments, the status, and what is left in `out` and in `err`. Files are read at status 0 alone.
type Row<'a> = (Result<&'a [&'a str], ErrorKind>, u8, &'a str, &'a str);

const ARGUMENTS: &[Row<'static>] = &[
    (
        Ok(&["yates", "check", "c"]),
        0,
        "yes ratio 1000000 set all\n",
        "",
    ),
    // The first one is the program's name, whatever it is.
    (Ok(&["check", "c"]), 2, "", "usage\n"),
    // No words, and not even a name.
    (Ok(&["yates"]), 2, "", "usage\n"),
    (Ok(&[]), 2, "", "usage\n"),
    // Words that are no text, and no memory for them.
    (Err(ErrorKind::InvalidData), 2, "", "usage\n"),
    (Err(ErrorKind::OutOfMemory), 6, "", "fault: memory\n"),
];

fn arguments_of(
    alloc: Global,
    given: Result<&[&str], ErrorKind>,
) -> Result<io::Result<Args>, Fail> {
    match given {
        Ok(words) => Ok(Ok(strings_of(alloc, words)?.into_iter())),
        Err(kind) => Ok(Err(io::Error::from(kind))),
    }
}

fn is_left(left: &Outcome, row: &Row<'_>) -> bool {
    let (_, status, out, err) = *row;
    let is_written = (left.out.bytes() == out.as_bytes()) & (left.err.bytes() == err.as_bytes());
    is_written & (left.status == status)
}

/// Whether the arguments leave over this depot what they have to.
fn leave(alloc: Global, row: &Row<'_>, depot: &mut RecordDepot<MemDepot>) -> Result<bool, Fail> {
    let left = outcome_of_arguments(alloc, arguments_of(alloc, row.0)?, depot)?;
    Ok(is_left(&left, row) & (depot.reads().is_empty() == (row.1 != 0)))
}

fn are_served(alloc: Global, row: &Row<'_>) -> Result<bool, Fail> {
    let mut files = MemDepot::new(alloc, 64)?;
    files.add("c", SMALLEST.as_bytes())?;
    leave(alloc, row, &mut RecordDepot::new(alloc, files))
}

fn all_are_served(rt: &impl Abort, alloc: Global) -> Result<(), Fail> {
    for row in ARGUMENTS {
        let (_, status, out, err) = *row;
        assert!(rt; are_served(alloc, row)?, "{status} {out}{err}");
    }
    Ok(())
}

#[test]
fn the_first_argument_is_no_word(rt: HostRuntime) -> Result<(), Fail> {
    all_are_served(&rt, rt.alloc())
}
