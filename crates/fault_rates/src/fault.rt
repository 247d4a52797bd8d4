//! Why bytes are no rates of a routing.
ghost use Rattle.std.specs.Prelude.{◌≡◌};
ghost use Rattle.number_tables.specs.declared.fault.TableFault.{TableFault};
ghost use Rattle.fault_rates.specs.declared.fault.RateFault.TheVariants as faults;
ghost use Rattle.fault_rates.specs.Reading.{fault_of};

use number_tables::TableFault;
use te_model::{Memory, RuleFault};
use thiserror::Error;

/// Why bytes are no file of rates of a routing.
#[derive(Clone, Copy, PartialEq, Eq, Debug, Drop, Error)]
pub enum RateFault {
    /// The first line, counted from 1, at which the bytes leave the tables, or else the files of rates of the routing.
    #[error("shape at line {0}")]
    Shape(u64),
    /// The rule of the least number that fails, G1 or G2, and the least place where it does: 0, or the pair.
    #[error("rule G{} at {}", .0.number, .0.place)]
    Rule(RuleFault),
    /// There was not enough memory.
    #[error("memory")]
    Memory,
}

impl From<TableFault> for RateFault {
    ghost from_gives = { λ table fault. fault ≡ fault_of table };

    fn from(table: TableFault) -> RateFault {
        match table {
            TableFault::Shape(line) => RateFault::Shape(line),
            TableFault::Memory => RateFault::Memory,
        }
    }
}

impl From<Memory> for RateFault {
    ghost from_gives = { λ _ fault. fault ≡ faults.Memory };

    fn from(_error: Memory) -> RateFault {
        RateFault::Memory
    }
}
