//! The records of a file, one after another.

ghost use Rattle.std.specs.Prelude.{◌≡◌, ◌≢◌, ◌∷◌, [], length, true, false, IfErr, IfOk, IfNone, IfSome, option_map};
ghost use Rattle.csv.specs.Records.{field_at};
ghost use Rattle.csv.specs.Reading.{error_kind};
ghost use Rattle.csv_records.specs.Errors.{IsShortOrUnread};
ghost use Rattle.csv_records.specs.Rows.{records_of};
ghost use Rattle.csv_records.specs.Table.{Table};

use csv::{ByteRecord, Reader, ReaderBuilder};
use std::alloc::Global;
use std::marker::Model;
use te_model::Memory;

/// The records of a CSV file that lies in memory: the one that was read last, and those that are left.
#[derive(Drop)]
pub struct Rows<'a> {
    reader: Reader<&'a [u8]>,
    fields: ByteRecord,
    ended: bool,
}

impl<'a> Model for Rows<'a> {
    ghost use Rattle.csv_records.specs.Table.{Table};

    ghost Value = { Table };

    ghost use Rattle.std.specs.Prelude.{◌≡◌, [], false, if◌then◌else◌};
    ghost use Rattle.csv.specs.Records.{fields_of};
    ghost use Rattle.csv_records.specs.Rest.{rest_of, IsReadyReader};

    ghost view = { λ a. record { current = fields_of a.fields; rest = if a.ended then [] else rest_of a.reader } };

    ghost invariant = { λ a. a.ended ≡ false → IsReadyReader a.reader };
}

impl<'a> Rows<'a> {
    /// The records of these bytes, the first of them still to be read.
    pub fn new(alloc: Global, bytes: &'a [u8]) -> Rows<'a>
        ensures { result ≡ record { current = []; rest = records_of bytes.now } }
    {
        let reader = ReaderBuilder::new()
            .has_headers(false)
            .flexible(true)
            .from_reader(alloc, bytes);
        Rows {
            reader,
            fields: ByteRecord::new(alloc),
            ended: false,
        }
    }

    /// Reads the next record, and says whether there was one. After the last one, and after want of memory, no record is
    /// left; after want of memory the one that was read last has no fields.
    pub fn advance(&mut self) -> Result<bool, Memory>
        ensures found { IfOk result (λ found. found ≡ true → self.old.rest ≡ self.new.current ∷ self.new.rest) }
        ensures ended { IfOk result (λ found. found ≡ false → self.old.rest ≡ []) }
        ensures stays_ended { IfOk result (λ found. found ≡ false → self.new.rest ≡ []) }
        ensures failed { IfErr result (λ _. self.new.rest ≡ []) }
        ensures cleared { IfErr result (λ _. self.new.current ≡ []) }
    {
        if self.ended {
            return Ok(false);
        }
        match self.reader.read_byte_record(&mut self.fields) {
            Ok(true) => Ok(true),
            Ok(false) => {
                self.ended = true;
                Ok(false)
            }
            Err(e) => {
                self.ended = true;
                self.fields.clear();
                Err(memory_of(e))
            }
        }
    }

    /// How many fields the record has that was read last.
    pub fn len(&self) -> usize
        ensures { result ≡ length self.now.current }
    {
        self.fields.len()
    }

    /// A field of the record that was read last, where it has one of this number.
    pub fn field(&self, number: usize) -> Option<&[u8]>
        ensures { option_map (λ s. s.now) result ≡ field_at self.now.current number }
    {
        self.fields.get(number)
    }

    /// The fields of the record that was read last, where it has exactly three.
    pub fn three_fields(&self) -> Option<(&[u8], &[u8], &[u8])>
        ensures none { IfNone result (length self.now.current ≢ 3) }
        ensures some { IfSome result (λ t. self.now.current ≡ t.0.now ∷ t.1.now ∷ t.2.now ∷ []) }
    {
        let first = self.field(0)?;
        let second = self.field(1)?;
        let third = self.field(2)?;
        if self.len() == 3 {
            Some((first, second, third))
        } else {
            None
        }
    }

    /// The fields of the record that was read last, where it has exactly four.
    pub fn four_fields(&self) -> Option<(&[u8], &[u8], &[u8], &[u8])>
        ensures none { IfNone result (length self.now.current ≢ 4) }
        ensures some { IfSome result (λ t. self.now.current ≡ t.0.now ∷ t.1.now ∷ t.2.now ∷ t.3.now ∷ []) }
    {
        let first = self.field(0)?;
        let second = self.field(1)?;
        let third = self.field(2)?;
        let fourth = self.field(3)?;
        if self.len() == 4 {
            Some((first, second, third, fourth))
        } else {
            None
        }
    }
}

// Over bytes in memory `csv` fails for want of memory alone. Its clauses say that it refuses no bytes here; that the reader
// underneath, a slice, does not fail either, no clause says.
fn memory_of(refused: csv::Error) -> Memory
    requires { IsShortOrUnread (error_kind refused) }
{
    let _ = refused;
    Memory
}
