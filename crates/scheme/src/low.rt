//! What a scheme notes of the matrix that it routed.
ghost use Rattle.std.specs.Prelude.{◌≡◌, ◌*◌, ◌/◌, ◌^◌, ◌≤◌, Some, None, Option, ℕ, ⊤};
ghost use Rattle.te_model.specs.declared.units.TheConstants.{RATIO_UNIT};

use te_model::{Bracket, RATIO_UNIT};

/// A note with a lower bound of every routing's utilisation, if the scheme has one.
pub trait LowNote {
    /// The lower bound, in millionths, if there is one.
    ghost low: { Self → Option ℕ };

    /// What the note has to meet, so that the bound can be read.
    ghost has_low: { Self → Type 0 };

    /// The lower bound of the utilisation, in millionths. Takes no memory.
    fn low(&self) -> Option<u128>
        requires { has_low self.now }
        ensures { result ≡ low self.now };
}

impl LowNote for () {
    ghost low = { λ _. None };

    ghost has_low = { λ _. ⊤ };

    fn low(&self) -> Option<u128> {
        None
    }
}

impl LowNote for Bracket {
    ghost use Rattle.scheme.specs.Low.{bracket_low, HasLow};

    ghost low = { bracket_low };

    ghost has_low = { HasLow };

    fn low(&self) -> Option<u128> {
        Some(self.low_num * u128::from(RATIO_UNIT) / self.low_den)
    }
}
