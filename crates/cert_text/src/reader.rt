//! Reading the lines of a certificate.
ghost use Rattle.std.specs.Prelude.{◌+◌, ◌<◌, ◌^◌, ◌*◌};
ghost use Rattle.std.specs.Option.{SomeIff};

use crate::cursor::Cursor;
use crate::fault::Stop;
use std::alloc::Global;
use te_model::{Name, is_name_byte};

// The number with one digit more, if no zero leads it and it is in range.
fn with_digit(value: u64, digit: u8) -> Option<u64>
    ensures { SomeIff result ((0 < value) × (value * 10 + digit < 2 ^ 64)) (value * 10 + digit) }
{
    if value == 0 {
        return None;
    }
    value.checked_mul(10)?.checked_add(u64::from(digit))
}

/// A reader of lines.
#[derive(Drop)]
pub struct Reader<C: Cursor> {
    source: C,
    line: u64,
    ghost lines_left: { line + C.bound source < 2 ^ 64 },
}

impl<C: Cursor> Reader<C> {
    ghost use Rattle.std.specs.Prelude.{◌≡◌, ◌≢◌, ◌≤◌, ◌==◌, Ok, Err, if◌then◌else◌, [], OnOk, IfOk, length, slice_index, string_bytes, true};
    ghost use Rattle.std.specs.List.{list_all};
    ghost use Rattle.te_model.specs.Network.{is_name_byte, is_name};
    ghost use Rattle.te_model.specs.Shape.{is_count};
    ghost use Rattle.cert_text.specs.Fits.{AreWords};
    ghost use Rattle.cert_text.specs.Place.{place, Reads, ReadsViewed, Passes, Appends};
    ghost use Rattle.cert_text.specs.Reading.{read_byte, read_word, read_line_end, read_digits, read_number, read_count, read_narrow, narrow_number, read_next_number, read_next_narrow, read_next_count, read_many, name_from, read_name};
    ghost use Rattle.cert_text.specs.Takes.{Takes};

    /// Stands at the first line.
    pub fn new(source: C) -> Reader<C>
        requires { 1 + C.bound source < 2 ^ 64 }
        ensures place { place result.line (C.rest result.source) ≡ place 1 (C.rest source) }
    {
        Reader { source, line: 1 }
    }

    /// Stands at this line, counted from 1.
    pub fn at_line(source: C, line: u64) -> Reader<C>
        requires { line + C.bound source < 2 ^ 64 }
        ensures source { result.source ≡ source }
        ensures line { result.line ≡ line }
    {
        Reader { source, line }
    }

    /// The line that is read, counted from 1.
    pub fn line(&self) -> u64
        ensures { result ≡ self.now.line }
    {
        self.line
    }

    /// What is left to read.
    pub fn source(&self) -> &C
        ensures { result.now ≡ self.now.source }
    {
        &self.source
    }

    /// The fault of the line that is read.
    pub fn fault(&self) -> Stop
        ensures { result ≡ Stop.Shape self.now.line }
    {
        Stop::Shape(self.line)
    }

    /// Takes this byte.
    pub fn byte(&mut self, wanted: u8) -> Result<(), Stop>
        ensures fewer { OnOk result
            (self.new.line + C.bound self.new.source < self.old.line + C.bound self.old.source) }
        ensures room { result ≢ Err Stop.Memory }
        ensures takes { Takes self.old self.new (Passes result) (read_byte wanted) }
    {
        match self.source.peek() {
            Some(b) if b == wanted => {
                self.source.advance();
                Ok(())
            }
            _ => Err(self.fault()),
        }
    }

    /// Takes these bytes.
    pub fn word(&mut self, wanted: &[u8]) -> Result<(), Stop>
        ensures room { result ≢ Err Stop.Memory }
        ensures takes { Takes self.old self.new (Passes result) (read_word wanted.now) }
    {
        for b in wanted {
            self.byte(*b)?;
        }
        Ok(())
    }

    /// Takes the line feed, after which the next line begins.
    pub fn end_line(&mut self) -> Result<(), Stop>
        ensures room { result ≢ Err Stop.Memory }
        ensures takes { Takes self.old self.new (Passes result) read_line_end }
    {
        self.byte(b'\n')?;
        self.line += 1;
        Ok(())
    }

    // Takes the digits that follow those of the value, and gives the whole number.
    fn digits_after(&mut self, first: u64) -> Result<u64, Stop>
        ensures room { result ≢ Err Stop.Memory }
        ensures takes { Takes self.old self.new (Reads result) (λ p. read_digits p.line first p.rest) }
    {
        let mut value = first;
        'digits: while let Some(b) = self.source.peek() {
            if !b.is_ascii_digit() {
                break;
            }
            value = match with_digit(value, b - b'0') {
                Some(longer) => longer,
                None => return Err(self.fault()),
            };
            self.source.advance();
        }
        Ok(value)
    }

    /// Takes a number in decimal, without a leading zero and below 2^64.
    #[tactic(auto, unfolding(crate::specs::Reading::read_number))]
    pub fn number(&mut self) -> Result<u64, Stop>
        ensures room { result ≢ Err Stop.Memory }
        ensures takes { Takes self.old self.new (Reads result) read_number }
    {
        let first = match self.source.peek() {
            Some(b) if b.is_ascii_digit() => u64::from(b - b'0'),
            _ => return Err(self.fault()),
        };
        self.source.advance();
        self.digits_after(first)
    }

    /// Takes a number within the range.
    #[tactic(auto, unfolding(crate::specs::Reading::read_count))]
    pub fn count(&mut self, low: u64, high: u64) -> Result<u64, Stop>
        ensures fits { IfOk result (λ n. is_count low high n ≡ true) }
        ensures room { result ≢ Err Stop.Memory }
        ensures takes { Takes self.old self.new (Reads result) (read_count low high) }
    {
        let n = self.number()?;
        if low <= n && n <= high {
            Ok(n)
        } else {
            Err(self.fault())
        }
    }

    /// Takes a number, of which a field of 32 bits keeps the greatest that it can hold where it is greater.
    #[tactic(auto, unfolding(crate::specs::Reading::read_narrow))]
    pub fn narrow(&mut self) -> Result<u32, Stop>
        ensures room { result ≢ Err Stop.Memory }
        ensures takes { Takes self.old self.new (Reads result) (read_narrow narrow_number) }
    {
        let n = self.number()?;
        Ok(n.min(u64::from(u32::MAX)) as u32)
    }

    /// Takes a space and a number.
    #[tactic(auto, unfolding(crate::specs::Reading::read_next_number))]
    pub fn next_number(&mut self) -> Result<u64, Stop>
        ensures room { result ≢ Err Stop.Memory }
        ensures takes { Takes self.old self.new (Reads result) read_next_number }
    {
        self.byte(b' ')?;
        self.number()
    }

    /// Takes so many numbers, each with a space before it, and puts them at the end of the list.
    pub fn numbers(&mut self, count: u64, list: &mut Vec<u64>) -> Result<(), Stop>
        ensures count { OnOk result (length list.new.items ≡ length list.old.items + count) }
        ensures words { AreWords list.old.items → OnOk result (AreWords list.new.items) }
        ensures takes { Takes self.old self.new (Appends result list.old.items list.new.items)
            (read_many count read_next_number) }
    {
        for _ in 0..count {
            let number = self.next_number()?;
            list.push(number)?;
        }
        Ok(())
    }

    #[tactic(auto, using(crate::proofs::Digits::letters_more, crate::proofs::Digits::longer))]
    fn name_text(&mut self, alloc: Global) -> Result<String, Stop>
        ensures short { IfOk result (λ t. length (string_bytes t) ≤ 32) }
        ensures letters { IfOk result (λ t. list_all is_name_byte (string_bytes t) ≡ true) }
        ensures takes { Takes self.old self.new (ReadsViewed (λ t. string_bytes t) result)
            (λ p. name_from p.line [] p.rest) }
    {
        let mut name = String::new(alloc);
        while let Some(b) = self.source.peek() {
            if !is_name_byte(b) {
                return Ok(name);
            }
            if name.len() == 32 {
                return Err(self.fault());
            }
            name.push(b as char)?;
            self.source.advance();
        }
        Ok(name)
    }

    /// Takes a name of 1 to 32 letters, digits and `_ . -`.
    #[tactic(auto, unfolding(crate::specs::Reading::read_name))]
    pub fn name(&mut self, alloc: Global) -> Result<Name, Stop>
        ensures fits { IfOk result (λ n. is_name n ≡ true) }
        ensures takes { Takes self.old self.new (Reads result) read_name }
    {
        let text = self.name_text(alloc)?;
        if text.is_empty() {
            return Err(self.fault());
        }
        Ok(Name::new(text))
    }

    /// Takes a space and a number of a field of 32 bits.
    #[tactic(auto, unfolding(crate::specs::Reading::read_next_narrow))]
    pub fn next_narrow(&mut self) -> Result<u32, Stop>
        ensures room { result ≢ Err Stop.Memory }
        ensures takes { Takes self.old self.new (Reads result) (read_next_narrow narrow_number) }
    {
        self.byte(b' ')?;
        self.narrow()
    }

    /// Takes a space and a number within the range.
    #[tactic(auto, unfolding(crate::specs::Reading::read_next_count))]
    pub fn next_count(&mut self, low: u64, high: u64) -> Result<u64, Stop>
        ensures fits { IfOk result (λ n. is_count low high n ≡ true) }
        ensures room { result ≢ Err Stop.Memory }
        ensures takes { Takes self.old self.new (Reads result) (read_next_count low high) }
    {
        self.byte(b' ')?;
        self.count(low, high)
    }

    /// Whether this byte stands next.
    pub fn is_next(&mut self, byte: u8) -> bool
        ensures told { C.is_told self.new.source → C.is_told self.old.source }
        ensures same { C.is_told self.new.source →
            place self.new.line (C.rest self.new.source) ≡ place self.old.line (C.rest self.old.source) }
        ensures next { C.is_told self.new.source → 0 < byte →
            result ≡ (slice_index (C.rest self.old.source) 0 == byte) }
    {
        self.source.peek() == Some(byte)
    }

    /// Passes where nothing is left.
    pub fn at_end(&mut self) -> Result<(), Stop>
        ensures room { result ≢ Err Stop.Memory }
        ensures takes { Takes self.old self.new (Passes result)
            (λ p. if length p.rest == 0 then Ok p else Err p.line) }
    {
        match self.source.peek() {
            None => Ok(()),
            Some(_) => Err(self.fault()),
        }
    }
}
