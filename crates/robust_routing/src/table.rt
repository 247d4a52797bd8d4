//! Tables of small numbers.
ghost use Rattle.std.specs.Prelude.{◌≡◌, ◌*◌, ◌-◌, ◌^◌, ◌<◌, IfOk, length, min, replicate};
ghost use Rattle.robust_routing.specs.Tables.{number_in, place_in, with_number};

use std::alloc::Global;
use std::marker::Model;
use te_model::Memory;

/// The greatest number of a table.
const MAX_NUMBER: u64 = 4_294_967_295;

/// Rows of numbers, all of one width.
#[derive(Drop)]
pub struct Table {
    width: usize,
    numbers: Vec<u32>,
}

impl Model for Table {
    ghost use Rattle.robust_routing.specs.Tables.{NumberTable};

    ghost Value = { NumberTable };

    ghost view = { λ t. record { width = t.width; numbers = t.numbers.items } };
}

/// Makes each of the numbers 0.
fn erase(numbers: &mut [u32])
    ensures { numbers.new ≡ replicate (length numbers.old) 0 }
{
    for number in numbers.iter_mut() {
        *number = 0;
    }
}

impl Table {
    /// So many rows of zeros. `Memory` comes where memory is wanting.
    pub fn new(alloc: Global, rows: usize, width: usize) -> Result<Table, Memory>
        ensures { IfOk result (λ t. t ≡ record { width = width; numbers = replicate (min (rows * width) (2 ^ 64 - 1)) 0 }) }
    {
        let numbers = vec![in alloc; 0; rows.saturating_mul(width)]?;
        Ok(Table { width, numbers })
    }

    /// Where the number stands.
    fn place_of(&self, row: usize, column: usize) -> usize
        ensures { result ≡ min (place_in self.now row column) (2 ^ 64 - 1) }
    {
        row.saturating_mul(self.width).saturating_add(column)
    }

    /// The number at the place, or 0 outside of the table.
    pub fn number(&self, row: usize, column: usize) -> u64
        ensures exact { result ≡ number_in self.now row column }
        ensures small { result < 2 ^ 32 }
    {
        let place = self.place_of(row, column);
        if place < self.numbers.len() {
            u64::from(self.numbers[place])
        } else {
            0
        }
    }

    /// Writes the number, or the greatest one where it is greater. Outside of the table it writes nothing.
    pub fn set(&mut self, row: usize, column: usize, number: u64)
        ensures { self.new ≡ with_number self.old row column number }
    {
        let place = self.place_of(row, column);
        if place < self.numbers.len() {
            self.numbers[place] = number.min(MAX_NUMBER) as u32;
        }
    }

    /// Makes each number 0.
    pub fn clear(&mut self)
        ensures { self.new ≡ record { width = self.old.width; numbers = replicate (length self.old.numbers) 0 } }
    {
        erase(&mut self.numbers);
    }
}
