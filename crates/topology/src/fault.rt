//! Why a topology is refused.

ghost use Rattle.std.specs.Prelude.{◌≡◌};
ghost use Rattle.topology.specs.declared.fault.TopologyFault.TheVariants as fault;

use te_model::Memory;
use thiserror::Error;

/// Why a topology is refused; a row is numbered from 1, after the header.
#[derive(Clone, Copy, PartialEq, Eq, Debug, Drop, Error)]
pub enum TopologyFault {
    /// There is no record, or the first has other fields than `source,target,capacity,cost`.
    #[error("header")]
    Header,
    /// The row has not four fields.
    #[error("fields at row {0}")]
    Fields(u64),
    /// A name is not 1 to 32 letters, digits and `_ . -`.
    #[error("name at row {0}")]
    Name(u64),
    /// The capacity is no number from 1 to 2^32, or the cost none from 1 to 65,535.
    #[error("number at row {0}")]
    Number(u64),
    /// The source is the target.
    #[error("self link at row {0}")]
    SelfLink(u64),
    /// The row brings the 129th node or the 1,025th link.
    #[error("too many at row {0}")]
    TooMany(u64),
    /// There is no row after the header.
    #[error("empty")]
    Empty,
    /// There was not enough memory.
    #[error("memory")]
    Memory,
}

impl From<Memory> for TopologyFault {
    ghost from_gives = { λ _ e. e ≡ fault.Memory };

    fn from(_memory: Memory) -> TopologyFault {
        TopologyFault::Memory
    }
}
