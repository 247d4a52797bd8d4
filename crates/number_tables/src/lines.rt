//! Reading a table line by line, of which no more than one line is kept.
ghost use Rattle.std.specs.Prelude.{◌≡◌, ℕ, ◌⊎◌, List, Ok, Err, IfOk};
ghost use Rattle.te_model.specs.Faults.{line_ends, LeavesAt};
ghost use Rattle.number_tables.specs.Leaving.{place_of, body_lines};
ghost use Rattle.number_tables.specs.Passing.{PassesFirst, PassesLines, StandsBefore, GivesNext, TakesNext, next_number};
ghost use Rattle.number_tables.specs.Table.{AreLines, table_lines, table_text};

use crate::fault::TableFault;
use crate::line::NumLine;
use crate::reader::{is_end_next, line};
use cert_text::Stop;
use cert_text::cursor::Bytes;
use cert_text::grammar::closing;
use cert_text::reader::Reader;
use std::alloc::Global;

// Passes the lines after the first one, and the end.
fn pass_lines<'a>(r: &mut Reader<Bytes<'a>>, alloc: Global) -> Result<(), Stop>
    ensures { PassesLines body_lines result (place_of r.old) }
{
    'lines: while !is_end_next(r.source().left()) {
        line(r, alloc)?;
    }
    closing(r)
}

// Passes the first line, and all after it.
fn pass_table<'a>(r: &mut Reader<Bytes<'a>>, alloc: Global, first: &[u8]) -> Result<(), Stop>
    requires { line_ends first.now ≡ 0 }
    ensures { PassesLines (table_lines first.now) result (place_of r.old) }
{
    r.word(first)?;
    r.end_line()?;
    pass_lines(r, alloc)
}

/// Passes over a table with this first line, and keeps no more than one line of it at a time.
///
/// # Errors
///
/// `Shape(line)` exactly where the bytes leave all tables with this first line at that line, counted from 1; `Memory`
/// where memory runs out.
pub fn pass_over_table(alloc: Global, first: &[u8], bytes: &[u8]) -> Result<(), TableFault>
    requires { line_ends first.now ≡ 0 }
    ensures table { IfOk result (λ _. (ls : List NumLine) × AreLines ls × (bytes.now ≡ table_text first.now ls)) }
    ensures accepted { (ls : List NumLine) → AreLines ls → bytes.now ≡ table_text first.now ls →
        (result ≡ Ok tt) ⊎ (result ≡ Err TableFault.Memory) }
    ensures shape { (k : ℕ) → result ≡ Err (TableFault.Shape k) →
        LeavesAt AreLines (table_text first.now) bytes.now k }
    ensures misshaped { (k : ℕ) → LeavesAt AreLines (table_text first.now) bytes.now k →
        (result ≡ Err (TableFault.Shape k)) ⊎ (result ≡ Err TableFault.Memory) }
{
    let mut reader = Reader::new(Bytes::new(bytes));
    Ok(pass_table(&mut reader, alloc, first)?)
}

/// The lines of a table, which are handed out one after the other.
#[derive(Drop)]
pub struct TableLines<'a> {
    reader: Reader<Bytes<'a>>,
}

impl<'a> TableLines<'a> {
    /// Stands before the lines of a table with this first line.
    ///
    /// # Errors
    ///
    /// `Shape(1)` exactly where the bytes have another first line; they may be no table all the same.
    pub fn new(first: &[u8], bytes: &'a [u8]) -> Result<TableLines<'a>, TableFault>
        ensures first { PassesFirst result first.now bytes.now }
        ensures table { (ls : List NumLine) → bytes.now ≡ table_text first.now ls →
            (lines : TableLines) × (result ≡ Ok lines) × StandsBefore lines ls × (next_number lines ≡ 2) }
    {
        let mut reader = Reader::new(Bytes::new(bytes));
        reader.word(first)?;
        reader.end_line()?;
        Ok(TableLines { reader })
    }

    /// The number of the next line in the file, counted from 1.
    pub fn number(&self) -> u64
        ensures { result ≡ next_number self.now }
    {
        self.reader.line()
    }

    /// The next line, or `None` where the line `end` stands next.
    ///
    /// # Errors
    ///
    /// `Shape(line)` of the next line exactly where neither a line of a table nor `end` stands next, so never of a table;
    /// `Memory` where memory runs out.
    pub fn next_line(&mut self, alloc: Global) -> Result<Option<NumLine>, TableFault>
        ensures next { TakesNext result self.old self.new }
        ensures table { (ls : List NumLine) → AreLines ls → StandsBefore self.old ls → GivesNext result self.old self.new ls }
    {
        if is_end_next(self.reader.source().left()) {
            return Ok(None);
        }
        Ok(Some(line(&mut self.reader, alloc)?))
    }
}
