//! Why bytes are no hose, or no hose certificate, of a network.
ghost use Rattle.std.specs.Prelude.{◌≡◌};
ghost use Rattle.number_tables.specs.declared.fault.TableFault.{TableFault};
ghost use Rattle.hose_bound.specs.declared.fault.HoseFault.TheVariants as faults;
ghost use Rattle.hose_bound.specs.Reading.{fault_of};

use number_tables::TableFault;
use te_model::{Memory, RuleFault};
use thiserror::Error;

/// Why bytes are no file of a hose, or of a hose certificate, of a network.
#[derive(Clone, Copy, PartialEq, Eq, Debug, Drop, Error)]
pub enum HoseFault {
    /// The first line, counted from 1, at which the bytes leave the tables, or else these files of the network.
    #[error("shape at line {0}")]
    Shape(u64),
    /// The rule of the least number that fails, K1 to K4, and the least place where it does.
    #[error("rule K{} at {}", .0.number, .0.place)]
    Rule(RuleFault),
    /// There was not enough memory.
    #[error("memory")]
    Memory,
}

impl From<TableFault> for HoseFault {
    ghost from_gives = { λ table fault. fault ≡ fault_of table };

    fn from(table: TableFault) -> HoseFault {
        match table {
            TableFault::Shape(line) => HoseFault::Shape(line),
            TableFault::Memory => HoseFault::Memory,
        }
    }
}

impl From<Memory> for HoseFault {
    ghost from_gives = { λ _ fault. fault ≡ faults.Memory };

    fn from(_error: Memory) -> HoseFault {
        HoseFault::Memory
    }
}
