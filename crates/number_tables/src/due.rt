//! Reading the lines of a small file, of which each has to be the one that is due.
ghost use Rattle.std.specs.Prelude.{◌≡◌, ℕ, List, Err, IfOk, length};
ghost use Rattle.te_model.specs.Faults.{line_ends, LeavesAt};
ghost use Rattle.number_tables.specs.Due.{has_count};
ghost use Rattle.number_tables.specs.Table.{AreLines, table_text};

use crate::fault::TableFault;
use crate::line::NumLine;
use crate::lines::{TableLines, pass_over_table};
use std::alloc::Global;
use te_model::Items;

/// The lines of a table that are left to read, of which each has to be the one that is due. One line is kept at a time.
#[derive(Drop)]
pub struct DueLines<'a> {
    lines: TableLines<'a>,
}

impl<'a> DueLines<'a> {
    ghost use Rattle.number_tables.specs.TakingDue.{IsBefore, TakesDue, next_line, BeginsWithEnd, BeginsWithLine, BeginsWithNumber, BeginsWithWord, LeavesAtEnd, LeavesAtLine, LeavesAtWord};

    /// Stands before the lines of the table with this first line.
    ///
    /// # Errors
    ///
    /// `Shape(line)` where the bytes leave all tables with this first line at that line, counted from 1; `Memory` where
    /// memory runs out.
    pub fn new(alloc: Global, first: &[u8], bytes: &'a [u8]) -> Result<DueLines<'a>, TableFault>
        requires { line_ends first.now ≡ 0 }
        ensures table { IfOk result (λ due. (ls : List NumLine) × (bytes.now ≡ table_text first.now ls) × IsBefore due ls) }
        ensures next { IfOk result (λ due. next_line due ≡ 2) }
        ensures shape { (k : ℕ) → result ≡ Err (TableFault.Shape k) →
            LeavesAt AreLines (table_text first.now) bytes.now k }
    {
        pass_over_table(alloc, first, bytes)?;
        let lines = TableLines::new(first, bytes)?;
        Ok(DueLines { lines })
    }

    /// The number of the next line in the file, counted from 1.
    pub fn line(&self) -> u64
        ensures { result ≡ next_line self.now }
    {
        self.lines.number()
    }

    /// The numbers of the next line, which has this word, or no word where it is empty.
    ///
    /// # Errors
    ///
    /// `Shape(line)` of the next line, where it has another word or the lines end; `Memory` where memory runs out.
    pub fn word_numbers(&mut self, alloc: Global, word: &[u8]) -> Result<Items<u64>, TableFault>
        ensures { (ls : List NumLine) → IsBefore self.old ls →
            TakesDue (BeginsWithWord word.now) (LeavesAtWord word.now) result self.old self.new ls }
    {
        let line = self.line();
        match self.lines.next_line(alloc)? {
            Some(next) if next.word.as_str().as_bytes() == word => Ok(next.numbers),
            _ => Err(TableFault::Shape(line)),
        }
    }

    /// The numbers of the next line, which has this word and so many numbers.
    ///
    /// # Errors
    ///
    /// `Shape(line)` of the next line, where it is none of these or the lines end; `Memory` where memory runs out.
    pub fn numbers(
        &mut self,
        alloc: Global,
        word: &[u8],
        count: usize,
    ) -> Result<Items<u64>, TableFault>
        ensures count { IfOk result (λ numbers. length numbers ≡ count) }
        ensures takes { (ls : List NumLine) → IsBefore self.old ls →
            TakesDue (BeginsWithLine word.now (has_count count)) (LeavesAtLine word.now (has_count count)) result self.old self.new ls }
    {
        let line = self.line();
        let numbers = self.word_numbers(alloc, word)?;
        if numbers.as_slice().len() == count {
            Ok(numbers)
        } else {
            Err(TableFault::Shape(line))
        }
    }

    /// The number of the next line, which has this word and one number.
    ///
    /// # Errors
    ///
    /// As of [`numbers`](DueLines::numbers).
    pub fn number(&mut self, alloc: Global, word: &[u8]) -> Result<u64, TableFault>
        ensures { (ls : List NumLine) → IsBefore self.old ls →
            TakesDue (BeginsWithNumber word.now) (LeavesAtLine word.now (has_count 1)) result self.old self.new ls }
    {
        let numbers = self.numbers(alloc, word, 1)?;
        Ok(numbers.as_slice()[0])
    }

    /// Nothing more is due.
    ///
    /// # Errors
    ///
    /// `Shape(line)` of the next line, where there is one; `Memory` where memory runs out.
    pub fn end(&mut self, alloc: Global) -> Result<(), TableFault>
        ensures { (ls : List NumLine) → IsBefore self.old ls →
            TakesDue BeginsWithEnd LeavesAtEnd result self.old self.new ls }
    {
        let line = self.line();
        match self.lines.next_line(alloc)? {
            None => Ok(()),
            Some(_) => Err(TableFault::Shape(line)),
        }
    }
}
