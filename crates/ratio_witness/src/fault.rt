//! Why a file is no witness of a certificate.
ghost use Rattle.std.specs.Prelude.{◌≡◌};
ghost use Rattle.ratio_witness.specs.Outcome.{fault_of};
ghost use Rattle.ratio_witness.specs.declared.fault.WitnessFault.TheVariants as faults;

use number_tables::TableFault;
use std::alloc::{AllocError, AllocFailed};
use te_model::{Memory, RuleFault};
use thiserror::Error;

/// Why a file is no witness of a certificate.
#[derive(Clone, Copy, PartialEq, Eq, Debug, Drop, Error)]
pub enum WitnessFault {
    /// The first line, counted from 1, at which the bytes leave the tables or, where they are a table, the format.
    #[error("shape at line {0}")]
    Shape(u64),
    /// The file has the right shape, and a rule fails: the one of the least number, at its least place.
    #[error("rule U{} at {}", .0.number, .0.place)]
    Rule(RuleFault),
    /// There was not enough memory.
    #[error("memory")]
    Memory,
}

impl From<TableFault> for WitnessFault {
    ghost from_gives = { λ table fault. fault ≡ fault_of table };

    fn from(fault: TableFault) -> WitnessFault {
        match fault {
            TableFault::Shape(line) => WitnessFault::Shape(line),
            TableFault::Memory => WitnessFault::Memory,
        }
    }
}

impl From<AllocError> for WitnessFault {
    ghost from_gives = { λ _ fault. fault ≡ faults.Memory };

    fn from(_error: AllocError) -> WitnessFault {
        WitnessFault::Memory
    }
}

impl<T: Drop> From<AllocFailed<T>> for WitnessFault {
    ghost from_gives = { λ _ fault. fault ≡ faults.Memory };

    fn from(_error: AllocFailed<T>) -> WitnessFault {
        WitnessFault::Memory
    }
}

impl From<Memory> for WitnessFault {
    ghost from_gives = { λ _ fault. fault ≡ faults.Memory };

    fn from(_error: Memory) -> WitnessFault {
        WitnessFault::Memory
    }
}
