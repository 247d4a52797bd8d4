//! Small files of words and numbers: what is taken as a table, and at which line other bytes leave the tables.
ghost use Rattle.number_tables.specs.Table.{AreLines};

use crate::cases::{Case, all_hold};
use number_tables::spelling::{print_and_read, read_and_print};
use number_tables::{
    DueLines, NumLine, TableFault, TableLines, pass_over_table, print_table, table,
};
use std::alloc::Global;
use te_model::Memory;

// The first line of these tables.
const FIRST: &[u8] = b"yates-x 1";

// The bytes after the first line, and the line at which they leave the tables, if any.
struct Body<'a>(&'a str, Option<u64>);

const BODIES: &[Body] = &[
    // Tables.
    Body("end\n", None),
    Body("bound 0\nend\n", None),
    Body("enda\nend\n", None),
    Body(
        "abcdefghijklmnop\nscale 1 18446744073709551615\n0 7 0\n33\nend\n",
        None,
    ),
    Body("en\nends 1\nfriend\nend\n", None),
    // A word.
    Body("abcdefghijklmnopq\nend\n", Some(2)),
    Body("Bound 1\nend\n", Some(2)),
    Body("bound1\nend\n", Some(2)),
    Body("bound_ 1\nend\n", Some(2)),
    Body("a b\nend\n", Some(2)),
    Body("1 b\nend\n", Some(2)),
    Body("1\n1b\nend\n", Some(3)),
    // A number.
    Body("01\nend\n", Some(2)),
    Body("a 00\nend\n", Some(2)),
    Body("18446744073709551616\nend\n", Some(2)),
    Body("a -1\nend\n", Some(2)),
    // Spaces and ends of lines.
    Body("\nend\n", Some(2)),
    Body(" a\nend\n", Some(2)),
    Body("a \nend\n", Some(2)),
    Body("a  1\nend\n", Some(2)),
    Body("a\t1\nend\n", Some(2)),
    Body("1\r\nend\n", Some(2)),
    Body("1\n2\n3 \nend\n", Some(4)),
    // The end.
    Body("", Some(2)),
    Body("1", Some(2)),
    Body("1\n", Some(3)),
    Body("1\nend", Some(3)),
    Body("1\nend 2\nend\n", Some(3)),
    Body("1\nend \n", Some(3)),
    Body("1\nends", Some(3)),
    Body("1\nend\n1\nend\n", Some(4)),
    Body("1\nend\n\n", Some(4)),
    Body("1\nend\nend\n", Some(4)),
    // Two faults, of which the first one is named.
    Body("1\n2 \n03\nend\n4", Some(3)),
];

// Whole files, and whether they are tables: their first line is so, or another.
struct File<'a>(&'a str, bool);

const FILES: &[File] = &[
    File("yates-x 1\nend\n", true),
    File("", false),
    File("yates-x 1", false),
    File("yates-x 2\nend\n", false),
    File("yates-x 1 \nend\n", false),
    File("yates-x 11\nend\n", false),
    File("\nyates-x 1\nend\n", false),
    File("end\n", false),
];

// The bytes after the first line of a small file: `count` with a number, as many lines of two numbers, and nothing more; and
// the line at which other bytes leave these files.
struct DueBody<'a>(&'a str, Option<u64>);

const DUE_BODIES: &[DueBody] = &[
    DueBody("count 0\nend\n", None),
    DueBody("count 2\n1 2\n3 4\nend\n", None),
    DueBody("end\n", Some(2)),
    DueBody("counts 1\n1 2\nend\n", Some(2)),
    DueBody("1\n1 2\nend\n", Some(2)),
    DueBody("count\n1 2\nend\n", Some(2)),
    DueBody("count 1 1\n1 2\nend\n", Some(2)),
    DueBody("count 1\n1\nend\n", Some(3)),
    DueBody("count 1\n1 2 3\nend\n", Some(3)),
    DueBody("count 1\npair 1 2\nend\n", Some(3)),
    DueBody("count 2\n1 2\nend\n", Some(4)),
    DueBody("count 1\n1 2\n3 4\nend\n", Some(4)),
    // A fault of the table comes first.
    DueBody("counts 1\n1 2\nend \n", Some(4)),
];

// Takes the lines of such a file.
fn pass_due_lines(alloc: Global, bytes: &[u8]) -> Result<(), TableFault> {
    let mut lines = DueLines::new(alloc, FIRST, bytes)?;
    let count = lines.number(alloc, b"count")?;
    for _ in 0..count {
        lines.numbers(alloc, b"", 2)?;
    }
    lines.end(alloc)
}

// The line at which the bytes leave the tables, and 0 where they are one.
fn faulty_line(alloc: Global, bytes: &[u8]) -> Option<u64> {
    match table(alloc, FIRST, bytes) {
        Ok(_) => Some(0),
        Err(TableFault::Shape(line)) => Some(line),
        Err(TableFault::Memory) => None,
    }
}

// The same, where no more than one line is kept.
fn line_that_stops(alloc: Global, bytes: &[u8]) -> Option<u64> {
    match pass_over_table(alloc, FIRST, bytes) {
        Ok(()) => Some(0),
        Err(TableFault::Shape(line)) => Some(line),
        Err(TableFault::Memory) => None,
    }
}

// How many lines of the table are handed out one after the other.
fn count_lines(alloc: Global, bytes: &[u8]) -> Result<usize, TableFault> {
    let mut lines = TableLines::new(FIRST, bytes)?;
    for count in 0..bytes.len() {
        if lines.next_line(alloc)?.is_none() {
            return Ok(count);
        }
    }
    Ok(bytes.len())
}

// Whether as many lines are handed out as stand between the first line and the end.
fn has_its_lines(alloc: Global, bytes: &[u8]) -> bool {
    let ends = bytes.iter().filter(|b| **b == b'\n').count();
    matches!(count_lines(alloc, bytes), Ok(count) if ends.checked_sub(2) == Some(count))
}

// Whether the table is printed as it was read.
fn is_printed_again(alloc: Global, bytes: &[u8]) -> bool {
    match read_and_print(alloc, FIRST, bytes) {
        Ok(file) => file.as_slice() == bytes,
        Err(_) => false,
    }
}

// The fault of a table that was to be printed again.
fn fault_of_printing(alloc: Global, bytes: &[u8]) -> Option<TableFault> {
    match read_and_print(alloc, FIRST, bytes) {
        Ok(_) => None,
        Err(fault) => Some(fault),
    }
}

// Whether these are the lines of the table.
fn are_lines_of(alloc: Global, lines: &[NumLine], bytes: &[u8]) -> bool {
    match print_table(alloc, FIRST, lines) {
        Ok(file) => file.as_slice() == bytes,
        Err(_) => false,
    }
}

// Whether the lines are read again from what is printed of them.
fn are_read_again(alloc: Global, lines: &[NumLine], bytes: &[u8]) -> bool
    requires { AreLines lines.now }
{
    match print_and_read(alloc, FIRST, lines) {
        Ok(again) => are_lines_of(alloc, &again, bytes),
        Err(_) => false,
    }
}

// Whether the lines of the table are read again from what is printed of them.
fn is_read_again(alloc: Global, bytes: &[u8]) -> bool {
    match table(alloc, FIRST, bytes) {
        Ok(lines) => are_read_again(alloc, &lines, bytes),
        Err(_) => false,
    }
}

// Whether a table is printed and read as it was read, and another file is refused for the same reason.
fn is_spelled(alloc: Global, bytes: &[u8], fault: Option<u64>) -> bool {
    match fault {
        Some(line) => fault_of_printing(alloc, bytes) == Some(TableFault::Shape(line)),
        None => is_printed_again(alloc, bytes) && is_read_again(alloc, bytes),
    }
}

// The bytes after the first line, how many lines of a table stand before those that are none, and where these begin, if the end is not there.
struct LinesOf<'a>(&'a str, usize, Option<u64>);

const LINES: &[LinesOf] = &[
    LinesOf("end\n", 0, None),
    LinesOf("1\n2 3\nend\n", 2, None),
    // What stands behind the end is not looked at.
    LinesOf("1\nend\nend\n", 1, None),
    LinesOf("1\nend 2\n", 1, Some(3)),
    LinesOf("1\n2 \n03\nend\n4", 1, Some(3)),
    LinesOf("1\n2", 1, Some(3)),
    LinesOf("", 0, Some(2)),
];

// How many lines are handed out one after the other, and the fault after them, if there is one.
fn lines_and_fault(
    alloc: Global,
    lines: &mut TableLines,
    most: usize,
) -> (usize, Option<TableFault>) {
    for count in 0..most {
        match lines.next_line(alloc) {
            Ok(Some(_)) => {}
            Ok(None) => return (count, None),
            Err(fault) => return (count, Some(fault)),
        }
    }
    (most, None)
}

// The same, of a file with its first line; and the fault of another first line.
fn lines_of(alloc: Global, bytes: &[u8]) -> (usize, Option<TableFault>) {
    match TableLines::new(FIRST, bytes) {
        Ok(mut lines) => lines_and_fault(alloc, &mut lines, bytes.len()),
        Err(fault) => (0, Some(fault)),
    }
}

impl<'a> Case for LinesOf<'a> {
    fn holds(&self, alloc: Global) -> bool {
        let Ok(file) = format!(in alloc; "yates-x 1\n{}", self.0) else {
            return false;
        };
        let (count, fault) = lines_of(alloc, file.as_bytes());
        count == self.1 && fault == self.2.map(|line| TableFault::Shape(line))
    }
}

impl<'a> Case for Body<'a> {
    fn holds(&self, alloc: Global) -> bool {
        let Ok(file) = format!(in alloc; "yates-x 1\n{}", self.0) else {
            return false;
        };
        let bytes = file.as_bytes();
        let due = Some(self.1.unwrap_or(0));
        let is_taken = faulty_line(alloc, bytes) == due && line_that_stops(alloc, bytes) == due;
        is_taken
            && is_spelled(alloc, bytes, self.1)
            && (self.1.is_some() || has_its_lines(alloc, bytes))
    }
}

impl<'a> Case for DueBody<'a> {
    fn holds(&self, alloc: Global) -> bool {
        let Ok(file) = format!(in alloc; "yates-x 1\n{}", self.0) else {
            return false;
        };
        match pass_due_lines(alloc, file.as_bytes()) {
            Ok(()) => self.1.is_none(),
            Err(TableFault::Shape(line)) => self.1 == Some(line),
            Err(TableFault::Memory) => false,
        }
    }
}

impl<'a> Case for File<'a> {
    fn holds(&self, alloc: Global) -> bool {
        let bytes = self.0.as_bytes();
        let line = if self.1 { 0 } else { 1 };
        let fault = if self.1 {
            None
        } else {
            Some(TableFault::Shape(1))
        };
        faulty_line(alloc, bytes) == Some(line) && lines_of(alloc, bytes) == (0, fault)
    }
}

#[test]
fn files_have_their_first_line(rt: HostRuntime) {
    all_hold(&rt, rt.alloc(), FILES);
}

#[test]
fn bodies_are_taken_or_left_at_their_line(rt: HostRuntime) {
    all_hold(&rt, rt.alloc(), BODIES);
}

#[test]
fn lines_are_handed_out_up_to_one_that_is_none(rt: HostRuntime) {
    all_hold(&rt, rt.alloc(), LINES);
}

// Lines that are made, and the text of their table.
fn are_made_lines_printed(alloc: Global) -> Result<bool, Memory> {
    let mut lines = Vec::new(alloc);
    lines.push(NumLine::new(alloc, "scale", vec![in alloc; 1, 2]?)?)?;
    lines.push(NumLine::new(alloc, "", vec![in alloc; 0, 7, 0]?)?)?;
    let file = print_table(alloc, FIRST, &lines)?;
    Ok(file.as_slice() == b"yates-x 1\nscale 1 2\n0 7 0\nend\n".as_slice())
}

#[test]
fn lines_that_are_made_are_printed(rt: HostRuntime) {
    assert!(rt; matches!(are_made_lines_printed(rt.alloc()), Ok(true)));
}

#[test]
fn lines_are_taken_where_they_are_due(rt: HostRuntime) {
    all_hold(&rt, rt.alloc(), DUE_BODIES);
}
