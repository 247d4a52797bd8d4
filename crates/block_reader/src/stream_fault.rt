//! Why a certificate is not read block by block.
ghost use Rattle.std.specs.Prelude.{◌≡◌, Some};
ghost use Rattle.te_model.specs.Validity.{earlier_fault};
ghost use Rattle.block_reader.specs.declared.stream_fault.StreamFault.TheVariants.{Memory as OutOfMemory};

use std::alloc::{AllocError, AllocFailed};
use te_model::{RuleFault, earlier_fault};

/// Why a certificate is not read block by block.
#[derive(Clone, Copy, Debug, PartialEq, Eq)]
pub enum StreamFault {
    /// A read failed.
    Failed,
    /// The file has more bytes than the limit of its format.
    TooLong,
    /// The first line, counted from 1, at which the bytes leave the format.
    Shape(u64),
    /// The file has the right shape, and a rule fails: the one of the least number, at its least place.
    Rule(RuleFault),
    /// There was not enough memory.
    Memory,
}

impl From<AllocError> for StreamFault {
    ghost from_gives = { λ _ e. e ≡ OutOfMemory };

    fn from(_error: AllocError) -> StreamFault {
        StreamFault::Memory
    }
}

impl<T: Drop> From<AllocFailed<T>> for StreamFault {
    ghost from_gives = { λ _ e. e ≡ OutOfMemory };

    fn from(_error: AllocFailed<T>) -> StreamFault {
        StreamFault::Memory
    }
}

/// The earlier of two faults of rules, of which the second may be none.
pub(crate) fn earlier(first: RuleFault, second: Option<RuleFault>) -> RuleFault
    ensures { Some result ≡ earlier_fault (Some first) second }
{
    earlier_fault(Some(first), second).unwrap_or(first)
}
