//! Why there is no plan.
ghost use Rattle.std.specs.Prelude.{◌≡◌};
ghost use Rattle.update_plan.specs.declared.fault.UpdateFault.TheVariants as faults;

use te_model::Memory;
use thiserror::Error;

/// Why there is no plan.
#[derive(Clone, Copy, PartialEq, Eq, Debug, Drop, Error)]
pub enum UpdateFault {
    /// No number of steps up to 1000 is safe; this is the first link on which 1000 steps are not.
    #[error("no slack at link {0}")]
    NoSlack(u32),
    /// There was not enough memory.
    #[error("memory")]
    Memory,
}

impl From<Memory> for UpdateFault {
    ghost from_gives = { λ _ fault. fault ≡ faults.Memory };

    fn from(_error: Memory) -> UpdateFault {
        UpdateFault::Memory
    }
}
