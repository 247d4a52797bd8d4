//! Why a failure file is refused.

ghost use Rattle.std.specs.Prelude.{◌≡◌};
ghost use Rattle.failure.specs.declared.fault.FailureFault.TheVariants as fault;

use std::alloc::AllocFailed;
use te_model::Memory;
use thiserror::Error;

/// Why a failure file is refused; a row is numbered from 1, after the header.
#[derive(Clone, Copy, PartialEq, Eq, Debug, Drop, Error)]
pub enum FailureFault {
    /// There is no record, or the first has other fields than `from,to,link`.
    #[error("header")]
    Header,
    /// The row has not three fields.
    #[error("fields at row {0}")]
    Fields(u64),
    /// A field is no number of 1 to 10 digits.
    #[error("number at row {0}")]
    Number(u64),
    /// The network has no link of this number.
    #[error("no such link at row {0}")]
    NoSuchLink(u64),
    /// The first step is above the last, or the last is no step of the series.
    #[error("interval at row {0}")]
    Interval(u64),
    /// There was not enough memory.
    #[error("memory")]
    Memory,
}

impl From<Memory> for FailureFault {
    ghost from_gives = { λ _ e. e ≡ fault.Memory };

    fn from(_memory: Memory) -> FailureFault {
        FailureFault::Memory
    }
}

impl<T: Drop> From<AllocFailed<T>> for FailureFault {
    ghost from_gives = { λ _ e. e ≡ fault.Memory };

    fn from(_refused: AllocFailed<T>) -> FailureFault {
        FailureFault::Memory
    }
}
