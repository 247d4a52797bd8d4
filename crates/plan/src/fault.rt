//! Why a plan is refused.

ghost use Rattle.std.specs.Prelude.{◌≡◌};
ghost use Rattle.plan.specs.declared.fault.PlanFault.TheVariants as fault;

use crate::key::Key;
use std::alloc::{AllocError, AllocFailed};
use thiserror::Error;

/// Why a plan is refused, in the order in which the faults are looked for.
#[derive(Clone, Copy, PartialEq, Eq, Debug, Drop, Error)]
pub enum PlanFault {
    /// The bytes are not UTF-8 or not JSON.
    #[error("not json")]
    NotJson,
    /// Some key is no key of a plan.
    #[error("unknown key")]
    UnknownKey,
    /// A key that a plan must have is not there.
    #[error("missing {0}")]
    Missing(Key),
    /// The value of the key is of another kind; at `Plan`, the value of the file is no object.
    #[error("kind of {0}")]
    Kind(Key),
    /// The value of the key is out of range.
    #[error("range of {0}")]
    Range(Key),
    /// The value of the key names no scheme, or none that can stand there.
    #[error("scheme name of {0}")]
    SchemeName(Key),
    /// There was not enough memory.
    #[error("memory")]
    Memory,
}

impl From<AllocError> for PlanFault {
    ghost from_gives = { λ _ e. e ≡ fault.Memory };

    fn from(_refused: AllocError) -> PlanFault {
        PlanFault::Memory
    }
}

impl<T: Drop> From<AllocFailed<T>> for PlanFault {
    ghost from_gives = { λ _ e. e ≡ fault.Memory };

    fn from(_refused: AllocFailed<T>) -> PlanFault {
        PlanFault::Memory
    }
}
