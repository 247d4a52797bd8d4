//! Numbers that words spell in decimal.
ghost use Rattle.std.specs.Prelude.{◌≡◌};
ghost use Rattle.command_files.specs.DecimalNumber.{decimal_number};

/// The number of which the word is the decimal, where it is below 2^64.
pub fn decimal_number(word: &str) -> Option<u64>
    ensures { result ≡ decimal_number word.now }
{
    let number = word.parse::<u64>().ok()?;
    if itoa::Buffer::new().format(number) == word {
        Some(number)
    } else {
        None
    }
}
