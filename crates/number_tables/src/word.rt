//! Whether a text is a word of a table.
ghost use Rattle.std.specs.Prelude.{◌≡◌};
ghost use Rattle.std.specs.List.{list_all};
ghost use Rattle.number_tables.specs.Table.{is_letter, is_word};

fn has_letters(bytes: &[u8]) -> bool
    ensures { result ≡ list_all is_letter bytes.now }
{
    bytes.iter().all(|b| b.is_ascii_lowercase())
}

/// Whether the bytes are 1 to 16 letters `a-z`, and not `end`.
pub(crate) fn is_word(bytes: &[u8]) -> bool
    ensures { result ≡ is_word bytes.now }
{
    1 <= bytes.len() && bytes.len() <= 16 && has_letters(bytes) && bytes != b"end".as_slice()
}
