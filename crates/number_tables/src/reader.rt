//! Reading a table, line by line.
ghost use Rattle.std.specs.Prelude.{◌≡◌, ℕ, List, Err, IfOk, slice_index};
ghost use Rattle.std.specs.Char.{is_ascii_digit};
ghost use Rattle.te_model.specs.Faults.{line_ends, LeavesAt};
ghost use Rattle.cert_text.specs.Place.{Reads};
ghost use Rattle.cert_text.specs.Takes.{Takes};
ghost use Rattle.number_tables.specs.Outcome.{GivesLinesOrMemory, IsFaultOrMemory};
ghost use Rattle.number_tables.specs.Reading.{spaces_in_line, begins_with_end, read_word_token, read_last, read_numbers_line, read_word_line, read_line};
ghost use Rattle.number_tables.specs.Leaving.{place_of, body_lines, ReadsLines};
ghost use Rattle.number_tables.specs.Table.{AreLines, table_lines, table_text};

use crate::fault::TableFault;
use crate::line::NumLine;
use crate::word::is_word;
use cert_text::Stop;
use cert_text::cursor::Bytes;
use cert_text::grammar::closing;
use cert_text::reader::Reader;
use std::alloc::Global;
use te_model::{Items, Name};

// How many spaces stand before the end of the line.
fn spaces_before_line_end(bytes: &[u8]) -> u64
    ensures { result ≡ spaces_in_line bytes.now }
{
    let mut count = 0;
    for b in bytes {
        if *b == b'\n' {
            break;
        }
        if *b == b' ' {
            count += 1;
        }
    }
    count
}

// Whether a digit stands next.
fn begins_with_digit(bytes: &[u8]) -> bool
    ensures { result ≡ is_ascii_digit (slice_index bytes.now 0) }
{
    match bytes.first() {
        Some(b) => b.is_ascii_digit(),
        None => false,
    }
}

// Whether the last line stands next.
pub(crate) fn is_end_next(bytes: &[u8]) -> bool
    ensures { result ≡ begins_with_end bytes.now }
{
    bytes.starts_with(b"end\n")
}

// The word that begins a line.
#[tactic(auto, unfolding(crate::specs::Reading::read_word_token))]
fn word<'a>(r: &mut Reader<Bytes<'a>>, alloc: Global) -> Result<Name, Stop>
    ensures takes { Takes r.old r.new (Reads result) read_word_token }
{
    let name = r.name(alloc)?;
    if is_word(name.as_str().as_bytes()) {
        Ok(name)
    } else {
        Err(r.fault())
    }
}

// The numbers to the end of the line, each with a space before it, after those of the list.
#[tactic(auto, unfolding(crate::specs::Reading::read_last))]
fn last_numbers<'a>(r: &mut Reader<Bytes<'a>>, mut list: Vec<u64>) -> Result<Items<u64>, Stop>
    ensures takes { Takes r.old r.new (Reads result) (read_last list.items) }
{
    let count = spaces_before_line_end(r.source().left());
    r.numbers(count, &mut list)?;
    r.end_line()?;
    Ok(Items::new(list))
}

// A line that a number begins.
#[tactic(auto, unfolding(crate::specs::Reading::read_numbers_line))]
fn numbers_line<'a>(r: &mut Reader<Bytes<'a>>, alloc: Global) -> Result<NumLine, Stop>
    ensures takes { Takes r.old r.new (Reads result) read_numbers_line }
{
    let first = r.number()?;
    let mut list = Vec::new(alloc);
    list.push(first)?;
    let numbers = last_numbers(r, list)?;
    Ok(NumLine {
        word: Name::new(String::new(alloc)),
        numbers,
    })
}

// A line that a word begins.
#[tactic(auto, unfolding(crate::specs::Reading::read_word_line))]
fn word_line<'a>(r: &mut Reader<Bytes<'a>>, alloc: Global) -> Result<NumLine, Stop>
    ensures takes { Takes r.old r.new (Reads result) read_word_line }
{
    let word = word(r, alloc)?;
    let numbers = last_numbers(r, Vec::new(alloc))?;
    Ok(NumLine { word, numbers })
}

// A line of a table.
#[tactic(auto, unfolding(crate::specs::Reading::read_line))]
pub(crate) fn line<'a>(r: &mut Reader<Bytes<'a>>, alloc: Global) -> Result<NumLine, Stop>
    ensures takes { Takes r.old r.new (Reads result) read_line }
{
    if begins_with_digit(r.source().left()) {
        numbers_line(r, alloc)
    } else {
        word_line(r, alloc)
    }
}

// The lines after the first one, and the end.
fn lines<'a>(r: &mut Reader<Bytes<'a>>, alloc: Global) -> Result<Vec<NumLine>, Stop>
    ensures { ReadsLines body_lines result (place_of r.old) }
{
    let mut lines = Vec::new(alloc);
    while !is_end_next(r.source().left()) {
        let next = line(r, alloc)?;
        lines.push(next)?;
    }
    closing(r)?;
    Ok(lines)
}

// The first line, and all after it.
fn whole<'a>(r: &mut Reader<Bytes<'a>>, alloc: Global, first: &[u8]) -> Result<Vec<NumLine>, Stop>
    requires { line_ends first.now ≡ 0 }
    ensures { ReadsLines (table_lines first.now) result (place_of r.old) }
{
    r.word(first)?;
    r.end_line()?;
    lines(r, alloc)
}

/// Reads a table: the line `first`, then lines of a word and numbers, then `end`, each ended by one line feed, and
/// nothing after. The answer is determined by the bytes:
///
/// - the lines, where the bytes are the text of these;
/// - `Shape(line)`, where they are no table with this first line: the first line, counted from 1, that is missing,
///   unended or of another form, or that stands after `end`;
/// - `Memory`, where memory runs out.
pub fn table(alloc: Global, first: &[u8], bytes: &[u8]) -> Result<Vec<NumLine>, TableFault>
    requires { line_ends first.now ≡ 0 }
    ensures lines { IfOk result (λ ls. AreLines ls.items × (bytes.now ≡ table_text first.now ls.items)) }
    ensures accepted { (ls : List NumLine) → AreLines ls → bytes.now ≡ table_text first.now ls →
        GivesLinesOrMemory result ls }
    ensures shape { (k : ℕ) → result ≡ Err (TableFault.Shape k) →
        LeavesAt AreLines (table_text first.now) bytes.now k }
    ensures misshaped { (k : ℕ) → LeavesAt AreLines (table_text first.now) bytes.now k →
        IsFaultOrMemory result (TableFault.Shape k) }
{
    let mut reader = Reader::new(Bytes::new(bytes));
    Ok(whole(&mut reader, alloc, first)?)
}
