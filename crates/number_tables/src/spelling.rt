//! Tables are printed and read back, and read and printed again.
ghost use Rattle.std.specs.Prelude.{◌≡◌, ℕ, List, Err, IfOk, MatchResult};
ghost use Rattle.te_model.specs.Faults.{line_ends, LeavesAt};
ghost use Rattle.number_tables.specs.Outcome.{GivesLinesOrMemory, IsFaultOrMemory};
ghost use Rattle.number_tables.specs.Table.{AreLines, table_text};

use crate::fault::TableFault;
use crate::line::NumLine;
use crate::reader::table;
use crate::writer::print_table;
use std::alloc::Global;

/// Prints the lines and reads them back: what [`print_table`] writes, [`table`] takes for the same lines.
pub fn print_and_read(
    alloc: Global,
    first: &[u8],
    lines: &[NumLine],
) -> Result<Vec<NumLine>, TableFault>
    requires first { line_ends first.now ≡ 0 }
    requires lines { AreLines lines.now }
    ensures same { GivesLinesOrMemory result lines.now }
{
    let file = print_table(alloc, first, lines)?;
    table(alloc, first, file.as_slice())
}

// Prints the lines, with the error of a reader.
fn print_of_read(alloc: Global, first: &[u8], lines: &[NumLine]) -> Result<Vec<u8>, TableFault>
    ensures { MatchResult result (λ file. file.items ≡ table_text first.now lines.now) (λ fault. fault ≡ TableFault.Memory) }
{
    Ok(print_table(alloc, first, lines)?)
}

/// Reads the file and prints it again: what [`table`] takes, [`print_table`] writes byte for byte.
///
/// # Errors
///
/// `Shape` exactly where [`table`] answers it, at the same line; `Memory` where memory runs out.
pub fn read_and_print(alloc: Global, first: &[u8], bytes: &[u8]) -> Result<Vec<u8>, TableFault>
    requires { line_ends first.now ≡ 0 }
    ensures same { IfOk result (λ file. file.items ≡ bytes.now) }
    ensures table { IfOk result (λ _. (ls : List NumLine) × AreLines ls × (bytes.now ≡ table_text first.now ls)) }
    ensures shape { (k : ℕ) → result ≡ Err (TableFault.Shape k) →
        LeavesAt AreLines (table_text first.now) bytes.now k }
    ensures misshaped { (k : ℕ) → LeavesAt AreLines (table_text first.now) bytes.now k →
        IsFaultOrMemory result (TableFault.Shape k) }
{
    let lines = table(alloc, first, bytes)?;
    print_of_read(alloc, first, lines.as_slice())
}
