//! What the system answers.
use std::io::{self, ErrorKind};

/// Why a call of the system did not do what it was asked.
#[derive(Clone, Copy, Debug, PartialEq, Eq)]
pub enum SystemFault {
    /// A signal came first, and the call may be made again.
    Interrupted,
    /// Anything else.
    Failed,
}

impl From<io::Error> for SystemFault {
    ghost use Rattle.std.specs.Prelude.{◌≡◌};
    ghost use Rattle.std.specs.IoError.{error_kind};
    ghost use Rattle.te_ports.specs.SystemFaults.{system_fault};

    ghost from_gives = { λ error fault. fault ≡ system_fault (error_kind error) };

    fn from(error: io::Error) -> Self {
        match error.kind() {
            ErrorKind::Interrupted => SystemFault::Interrupted,
            _ => SystemFault::Failed,
        }
    }
}

// How often a call that signals interrupt is made.
pub(crate) const TRIES: u8 = 100;
