//! Why a file is not read.
ghost use Rattle.std.specs.Prelude.{◌≡◌};
ghost use Rattle.cert_text.specs.declared.fault.Stop.TheVariants.{Memory};
ghost use Rattle.cert_text.specs.declared.fault.CertFault.TheVariants.{Memory as CertMemory};

use std::alloc::{AllocError, AllocFailed};
use te_model::{Memory, RuleFault};
use thiserror::Error;

/// Why no certificate is read.
#[derive(Clone, Copy, PartialEq, Eq, Debug, Drop, Error)]
pub enum CertFault {
    /// The first line, counted from 1, at which the bytes leave the format.
    #[error("shape at line {0}")]
    Shape(u64),
    /// The file has the right shape, and a rule fails: the one of the least number, at its least place.
    #[error("rule V{} at {}", .0.number, .0.place)]
    Rule(RuleFault),
    /// There was not enough memory.
    #[error("memory")]
    Memory,
}

/// Why reading stopped.
#[derive(Drop)]
pub enum Stop {
    /// The line is not of the form that is due.
    Shape(u64),
    /// There was not enough memory.
    Memory,
}

impl From<AllocError> for Stop {
    ghost from_gives = { λ _ e. e ≡ Memory };

    fn from(_error: AllocError) -> Stop {
        Stop::Memory
    }
}

impl<T: Drop> From<AllocFailed<T>> for Stop {
    ghost from_gives = { λ _ e. e ≡ Memory };

    fn from(_error: AllocFailed<T>) -> Stop {
        Stop::Memory
    }
}

impl From<Memory> for CertFault {
    ghost from_gives = { λ _ e. e ≡ CertMemory };

    fn from(_error: Memory) -> CertFault {
        CertFault::Memory
    }
}
