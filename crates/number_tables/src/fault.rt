//! Why bytes are no table.
ghost use Rattle.std.specs.Prelude.{◌≡◌};
ghost use Rattle.number_tables.specs.Outcome.{fault_of};
ghost use Rattle.number_tables.specs.declared.fault.TableFault.TheVariants as faults;

use cert_text::Stop;
use te_model::Memory;
use thiserror::Error;

/// Why bytes are no table.
#[derive(Clone, Copy, PartialEq, Eq, Debug, Drop, Error)]
pub enum TableFault {
    /// The first line, counted from 1, at which the bytes leave the tables.
    #[error("shape at line {0}")]
    Shape(u64),
    /// There was not enough memory.
    #[error("memory")]
    Memory,
}

impl From<Stop> for TableFault {
    ghost from_gives = { λ stop fault. fault ≡ fault_of stop };

    fn from(stop: Stop) -> TableFault {
        match stop {
            Stop::Shape(line) => TableFault::Shape(line),
            Stop::Memory => TableFault::Memory,
        }
    }
}

impl From<Memory> for TableFault {
    ghost from_gives = { λ _ fault. fault ≡ faults.Memory };

    fn from(_error: Memory) -> TableFault {
        TableFault::Memory
    }
}
