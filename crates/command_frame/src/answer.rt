//! What a command answers.
ghost use Rattle.std.specs.Prelude.{◌≡◌};

use te_model::Memory;

/// The answer of a command whose files were read and are not refused, with its text.
#[derive(Drop)]
pub enum Answer {
    /// What was asked for: a yes, the file that is published or converted, the report, or the summary.
    Done(Vec<u8>),
    /// No, and the line that says so.
    No(Vec<u8>),
    /// A declared pair has no path, and the line names it.
    NoPath(Vec<u8>),
}

/// Why a command has no answer.
#[derive(Drop)]
pub enum Fault {
    /// A file is refused, and the line says why.
    Refused(String),
    /// A read failed.
    Read,
    /// Memory was short.
    Memory,
}

impl From<Memory> for Fault {
    ghost use Rattle.command_frame.specs.declared.answer.Fault.TheVariants.{Memory as OutOfMemory};

    ghost from_gives = { λ _ e. e ≡ OutOfMemory };

    fn from(_: Memory) -> Fault {
        Fault::Memory
    }
}
