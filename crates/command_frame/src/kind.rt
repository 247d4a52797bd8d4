//! The kinds of files: how many bytes one may have, what its bytes give, and why they are refused.
ghost use Rattle.std.specs.Prelude.{◌≡◌, ◌≤◌, length, IfOk};
ghost use Rattle.te_ports.specs.Limit.{IsLimit};
ghost use Rattle.command_frame.specs.Reading.{Kind};
ghost use Rattle.command_frame.specs.Outcome.{ReadsBytes};

use std::alloc::Global;
use std::fmt::Display;

/// Why the bytes of a file give no value.
#[derive(Clone, Copy)]
pub enum BytesFault<R> {
    /// They are refused, for this cause.
    Refused(R),
    /// Memory was short.
    Memory,
}

/// A kind of files.
pub trait FileKind {
    /// What a file of it gives.
    type Value;

    /// Why one is refused. It shows as the words after the file's name.
    type Refusal: Display + Copy;

    /// What it is read against may be used.
    ghost is_ready: { Self → Type 0 };

    /// How long its files may be, and what their bytes give.
    ghost kind: { Self → Kind Self.Value };

    /// What holds of a value that a file gives.
    ghost IsSound: { Self → Self.Value → Type 0 };

    /// How many bytes a file may have that begins with these.
    fn limit(&self, start: &[u8]) -> u64
        ensures { result ≡ (kind self.now).limit start.now };

    /// What the bytes give.
    fn read(&self, alloc: Global, bytes: &[u8]) -> Result<Self::Value, BytesFault<Self::Refusal>>
        requires ready { is_ready self.now }
        requires few { length bytes.now ≤ (kind self.now).limit bytes.now }
        ensures reads { ReadsBytes Self.Refusal.output (kind self.now) bytes.now result }
        ensures sound { IfOk result (IsSound self.now) };

    /// The limit is one for files that are read piece by piece.
    ghost limited: { (of : Self) → IsLimit (kind of).limit };
}
