//! Why a matrix file is refused.

ghost use Rattle.std.specs.Prelude.{◌≡◌};
ghost use Rattle.traffic_matrix.specs.declared.fault.MatrixFault.TheVariants as fault;

use te_model::Memory;
use thiserror::Error;

/// Why a matrix file is refused; a row is numbered from 1, after the header.
#[derive(Clone, Copy, PartialEq, Eq, Debug, Drop, Error)]
pub enum MatrixFault {
    /// There is no record, or the first has other fields than `step,source,target,demand`.
    #[error("header")]
    Header,
    /// The row has not four fields.
    #[error("fields at row {0}")]
    Fields(u64),
    /// The source or the target is no name of the topology.
    #[error("unknown node at row {0}")]
    UnknownNode(u64),
    /// The step is no number of 1 to 10 digits, or the demand none from 0 to 2^32.
    #[error("number at row {0}")]
    Number(u64),
    /// The step is below the step of the row before.
    #[error("order at row {0}")]
    Order(u64),
    /// A row before has the same step, source and target.
    #[error("repeated at row {0}")]
    Repeated(u64),
    /// The source is the target.
    #[error("self pair at row {0}")]
    SelfPair(u64),
    /// The step is 1024 or more.
    #[error("too many steps at row {0}")]
    TooManySteps(u64),
    /// There was not enough memory.
    #[error("memory")]
    Memory,
}

impl From<Memory> for MatrixFault {
    ghost from_gives = { λ _ e. e ≡ fault.Memory };

    fn from(_memory: Memory) -> MatrixFault {
        MatrixFault::Memory
    }
}
