//! The lines of a report.
ghost use Rattle.std.specs.Prelude.{◌≡◌, ℕ, ◌+◌, ◌^◌, ◌++◌, OnOk, codes};
ghost use Rattle.experiment.specs.Text.{AmountsAtMost, figures_of, header, line, step_line, with_step};

use crate::fields::{print_field, print_number, print_number_or_dash};
use crate::figures::Figures;
use series_simulation::StepRow;
use te_model::Memory;

/// The header of a report, a line that names the fields of the others.
pub fn report_header() -> &'static str
    ensures { result.now ≡ header }
{
    "scheme,step,offered,delivered,lost_full,lost_failed,lost_no_path,peak,parts,low\n"
}

// Writes a line.
fn print_line(
    text: &mut Vec<u8>,
    word: &str,
    step: &str,
    figures: &Figures,
    low: Option<u128>,
) -> Result<(), Memory>
    ensures { OnOk result (text.new.items ≡ text.old.items ++ line word.now step.now figures.now low) }
{
    text.extend_from_slice(word.as_bytes())?;
    print_field(text, step)?;
    print_number(text, figures.offered)?;
    print_number(text, figures.delivered)?;
    print_number(text, figures.lost_full)?;
    print_number(text, figures.lost_failed)?;
    print_number(text, figures.lost_no_path)?;
    print_number(text, figures.peak)?;
    print_number(text, figures.parts)?;
    print_number_or_dash(text, low)?;
    text.push(b'\n')?;
    Ok(())
}

// Writes the line of a step.
fn print_row(text: &mut Vec<u8>, word: &str, row: &StepRow) -> Result<(), Memory>
    ensures { OnOk result (text.new.items ≡ text.old.items ++ step_line word.now row.now) }
{
    let mut digits = itoa::Buffer::new();
    let step = digits.format(row.step);
    print_line(text, word, step, &Figures::of(row), row.low)
}

/// Writes the line of a step, and takes the step into the total.
pub fn add_row(
    text: &mut Vec<u8>,
    total: &mut Figures,
    word: &str,
    row: &StepRow,
) -> Result<(), Memory>
    requires room { AmountsAtMost (2 ^ 127) total.old }
    ensures line { OnOk result (text.new.items ≡ text.old.items ++ step_line word.now row.now) }
    ensures total { OnOk result (total.new ≡ with_step total.old (figures_of row.now)) }
    ensures small { OnOk result ((bound : ℕ) → AmountsAtMost bound total.old → AmountsAtMost (bound + 2 ^ 64) total.new) }
{
    print_row(text, word, row)?;
    total.add(Figures::of(row));
    Ok(())
}

/// Writes the line of all steps.
pub fn print_total(text: &mut Vec<u8>, word: &str, total: &Figures) -> Result<(), Memory>
    ensures { OnOk result (text.new.items ≡ text.old.items ++ line word.now (codes "total") total.now None) }
{
    print_line(text, word, "total", total, None)
}
