//! A line of a table.
ghost use Rattle.std.specs.Prelude.{◌≡◌, IfOk};
ghost use Rattle.number_tables.specs.Due.{word_line};

use std::alloc::Global;
use te_model::{Items, Memory, Name};

/// A line of a table: a word, which is empty where the line has none, and numbers.
#[derive(Drop)]
pub struct NumLine {
    pub word: Name,
    pub numbers: Items<u64>,
}

impl NumLine {
    /// The line of this word, which is empty where it has none, and these numbers.
    ///
    /// Answers an error only where memory runs out.
    pub fn new(alloc: Global, word: &str, numbers: Vec<u64>) -> Result<NumLine, Memory>
        ensures { IfOk result (λ line. line ≡ word_line word.now numbers.items) }
    {
        let word = Name::new(String::from_str(alloc, word)?);
        Ok(NumLine {
            word,
            numbers: Items::new(numbers),
        })
    }
}
