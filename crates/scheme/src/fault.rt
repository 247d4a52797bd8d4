//! Why a scheme has no plan.
ghost use Rattle.std.specs.Prelude.{◌≡◌};

use std::alloc::{AllocError, AllocFailed};
use te_model::Memory;

/// Why a scheme has no plan for a network and its pairs.
#[derive(Clone, Copy, Debug, PartialEq, Eq)]
pub enum SchemeFault {
    /// The first pair without a path, by its number.
    NoPath(u32),
    /// There was not enough memory.
    Memory,
}

impl From<Memory> for SchemeFault {
    ghost use Rattle.scheme.specs.declared.fault.SchemeFault.{SchemeFault};

    ghost from_gives = { λ _ fault. fault ≡ SchemeFault.Memory };

    fn from(_error: Memory) -> SchemeFault {
        SchemeFault::Memory
    }
}

impl From<AllocError> for SchemeFault {
    ghost use Rattle.scheme.specs.declared.fault.SchemeFault.{SchemeFault};

    ghost from_gives = { λ _ fault. fault ≡ SchemeFault.Memory };

    fn from(_error: AllocError) -> SchemeFault {
        SchemeFault::Memory
    }
}

impl<T: Drop> From<AllocFailed<T>> for SchemeFault {
    ghost use Rattle.scheme.specs.declared.fault.SchemeFault.{SchemeFault};

    ghost from_gives = { λ _ fault. fault ≡ SchemeFault.Memory };

    fn from(_error: AllocFailed<T>) -> SchemeFault {
        SchemeFault::Memory
    }
}
