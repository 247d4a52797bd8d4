//! What a field spells.

ghost use Rattle.std.specs.Prelude.{◌≡◌, Some, None, if◌then◌else◌};
ghost use Rattle.csv_records.specs.Field.{is_number, is_number_within, digits_from};

/// The number that a field spells, where it is 1 to 10 digits; leading zeros are accepted.
pub fn number(field: &[u8]) -> Option<u64>
    ensures { result ≡ (if is_number field.now then Some (digits_from 0 field.now) else None) }
{
    if field.is_empty() || field.len() > 10 {
        return None;
    }
    let mut number = 0u64;
    for byte in field {
        if !byte.is_ascii_digit() {
            return None;
        }
        number = number * 10 + u64::from(*byte - b'0');
    }
    Some(number)
}

/// The same, where the number is one from `low` to `high`.
pub fn number_within(field: &[u8], low: u64, high: u64) -> Option<u64>
    ensures { result ≡ (if is_number_within low high field.now then Some (digits_from 0 field.now) else None) }
{
    let number = number(field)?;
    if low <= number && number <= high {
        Some(number)
    } else {
        None
    }
}
