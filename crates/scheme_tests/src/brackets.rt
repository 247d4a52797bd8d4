//! Whether a bracket is the one that a test expects.
ghost use Rattle.scheme.specs.Low.{HasLow};

use scheme::LowNote;
use te_model::Bracket;

/// Whether the bound from below is `low`, and the one from above is from there to `most`.
pub fn is_between(bracket: &Bracket, low: u128, most: u128) -> bool
    requires { HasLow bracket.now }
{
    bracket.low() == Some(low) && low <= bracket.parts && bracket.parts <= most
}
