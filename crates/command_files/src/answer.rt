//! The answer of a status and a text, and that of an inequality that fails.
ghost use Rattle.std.specs.Prelude.{◌≡◌, ◌≤◌, IfOk};
ghost use Rattle.command_frame.specs.Outcome.{status_of, answer_text};
ghost use Rattle.command_files.specs.Check.{no_line};

use command_frame::Answer;
use std::alloc::Global;
use te_model::Memory;

/// The answer with this status, 0 or 1, and this text.
pub fn answer_of(status: u8, text: Vec<u8>) -> Answer
    requires { status ≤ 1 }
    ensures status { status_of result ≡ status }
    ensures text { answer_text result ≡ text.items }
{
    if status == 0 {
        Answer::Done(text)
    } else {
        Answer::No(text)
    }
}

/// The no of an inequality that fails: its link, its number and its place.
pub fn failure_answer(alloc: Global, link: u32, rule: u8, place: u64) -> Result<Answer, Memory>
    ensures { IfOk result (λ answer. (status_of answer ≡ 1) × (answer_text answer ≡ no_line link rule place)) }
{
    let line = format!(in alloc; "no link {link} rule I{rule} place {place}\n")?;
    Ok(Answer::No(line.into_bytes()))
}
