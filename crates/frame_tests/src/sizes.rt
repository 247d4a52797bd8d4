//! The test commands, and their table.
ghost use Rattle.std.specs.Prelude.{◌≡◌, [], ◌∷◌, IfOk, map, string_bytes};
ghost use Rattle.std.specs.Option.{option_map};
ghost use Rattle.te_ports.specs.Shown.{shown_by};
ghost use Rattle.command_frame.specs.Outcome.{Follows, status_of, answer_text};
ghost use Rattle.frame_tests.specs.Sizes.{command_of, entry_of, tally, same, tally_of, sameness_of};
ghost use Rattle.frame_tests.specs.Asked.{command_meant};

use crate::size_file::Sizes;
use command_frame::{Answer, Ask, Fault, Table, value_in};
use std::alloc::Global;
use te_model::Memory;
use te_ports::Depot;

/// What the words ask for.
#[derive(Clone, Copy)]
pub enum Command<'a> {
    /// The size of a file.
    Tally(&'a str),
    /// Whether two files have one size.
    Same(&'a str, &'a str),
}

impl<'a> Ask for Command<'a> {
    ghost reading = { λ c. (entry_of (command_meant c)).reading };

    fn answer<D: Depot>(&self, alloc: Global, depot: &mut D) -> Result<Answer, Fault> {
        match self {
            Command::Tally(file) => answer_tally(alloc, depot, file),
            Command::Same(first, second) => answer_same(alloc, depot, first, second),
        }
    }
}

// The line of a size.
fn size_line(alloc: Global, size: u64) -> Result<Answer, Memory>
    ensures { IfOk result (λ answer. (tally_of size).text (status_of answer) (answer_text answer)) }
{
    let line = format!(in alloc; "{size}\n")?;
    Ok(Answer::Done(line.into_bytes()))
}

// Whether the sizes are one.
fn same_line(alloc: Global, first: u64, second: u64) -> Result<Answer, Memory>
    ensures { IfOk result (λ answer. (sameness_of first second).text (status_of answer) (answer_text answer)) }
{
    if first == second {
        let line = format!(in alloc; "same\n")?;
        Ok(Answer::Done(line.into_bytes()))
    } else {
        let line = format!(in alloc; "other\n")?;
        Ok(Answer::No(line.into_bytes()))
    }
}

fn answer_tally<D: Depot>(alloc: Global, depot: &mut D, file: &str) -> Result<Answer, Fault>
    ensures { Follows (entry_of (tally file.now)).reading (shown_by D.content D.gave D.faults depot.old)
        (shown_by D.content D.gave D.faults depot.new) result }
{
    let size = value_in(alloc, depot, &Sizes, file)?;
    Ok(size_line(alloc, size)?)
}

fn answer_same<D: Depot>(
    alloc: Global,
    depot: &mut D,
    first: &str,
    second: &str,
) -> Result<Answer, Fault>
    ensures { Follows (entry_of (same first.now second.now)).reading (shown_by D.content D.gave D.faults depot.old)
        (shown_by D.content D.gave D.faults depot.new) result }
{
    let size = value_in(alloc, depot, &Sizes, first)?;
    let other = value_in(alloc, depot, &Sizes, second)?;
    Ok(same_line(alloc, size, other)?)
}

/// The table of the test commands.
#[derive(Clone, Copy)]
pub struct SizeCommands;

impl Table for SizeCommands {
    ghost use Rattle.frame_tests.specs.Sizes.{SizeCommand, commands};

    ghost Command = { SizeCommand };

    ghost table = { commands };

    fn answer<D: Depot>(
        &self,
        alloc: Global,
        words: &[String],
        depot: &mut D,
    ) -> Option<Result<Answer, Fault>> {
        let command = command_of(words)?;
        Some(command.answer(alloc, depot))
    }
}

// The command of the words, where they are one of the forms.
fn command_of(words: &[String]) -> Option<Command<'_>>
    ensures { option_map command_meant result ≡ command_of (map string_bytes words.now) }
{
    match words {
        [word, file] => command_with_one(word.as_str(), file.as_str()),
        [word, first, second] => command_with_two(word.as_str(), first.as_str(), second.as_str()),
        [word, first, join, second] => {
            command_with_three(
                word.as_str(),
                first.as_str(),
                join.as_str(),
                second.as_str(),
            )
        }
        [word, first, how, join, second] => command_with_four(
            word.as_str(),
            first.as_str(),
            how.as_str(),
            join.as_str(),
            second.as_str(),
        ),
        _ => None,
    }
}

// The command of a word and one more.
fn command_with_one<'a>(word: &str, file: &'a str) -> Option<Command<'a>>
    ensures { option_map command_meant result ≡ command_of (word.now ∷ file.now ∷ []) }
{
    if word == "tally" {
        Some(Command::Tally(file))
    } else {
        None
    }
}

// The command of a word and two more.
fn command_with_two<'a>(word: &str, first: &'a str, second: &'a str) -> Option<Command<'a>>
    ensures { option_map command_meant result ≡ command_of (word.now ∷ first.now ∷ second.now ∷ []) }
{
    if word == "same" {
        Some(Command::Same(first, second))
    } else {
        None
    }
}

// The command of a word and three more.
fn command_with_three<'a>(
    word: &str,
    first: &'a str,
    join: &str,
    second: &'a str,
) -> Option<Command<'a>>
    ensures { option_map command_meant result ≡ command_of (word.now ∷ first.now ∷ join.now ∷ second.now ∷ []) }
{
    if word == "is" && join == "as" {
        Some(Command::Same(first, second))
    } else {
        None
    }
}

// The command of a word and four more.
fn command_with_four<'a>(
    word: &str,
    first: &'a str,
    how: &str,
    join: &str,
    second: &'a str,
) -> Option<Command<'a>>
    ensures { option_map command_meant result ≡ command_of (word.now ∷ first.now ∷ how.now ∷ join.now ∷ second.now ∷ []) }
{
    if word == "is" && how == "exactly" && join == "as" {
        Some(Command::Same(first, second))
    } else {
        None
    }
}
