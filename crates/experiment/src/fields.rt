//! The fields of a line after its first.
ghost use Rattle.std.specs.Prelude.{◌≡◌, ◌∷◌, ◌++◌, OnOk, decimal};
ghost use Rattle.experiment.specs.Text.{number_or_dash};

use te_model::Memory;

/// Writes a comma and a field.
pub fn print_field(text: &mut Vec<u8>, field: &str) -> Result<(), Memory>
    ensures { OnOk result (text.new.items ≡ text.old.items ++ 44 ∷ field.now) }
{
    text.push(b',')?;
    text.extend_from_slice(field.as_bytes())?;
    Ok(())
}

/// Writes a comma and a number in decimal.
pub fn print_number(text: &mut Vec<u8>, number: u128) -> Result<(), Memory>
    ensures { OnOk result (text.new.items ≡ text.old.items ++ 44 ∷ decimal number) }
{
    print_field(text, itoa::Buffer::new().format(number))
}

/// Writes a comma, and the number in decimal or a dash for none.
pub fn print_number_or_dash(text: &mut Vec<u8>, number: Option<u128>) -> Result<(), Memory>
    ensures { OnOk result (text.new.items ≡ text.old.items ++ 44 ∷ number_or_dash number) }
{
    match number {
        Some(number) => print_number(text, number),
        None => print_field(text, "-"),
    }
}
