//! The choice between two brackets.
ghost use Rattle.std.specs.Prelude.{◌≡◌, nat_lt, if◌then◌else◌};
ghost use Rattle.scheme.specs.Low.{HasLow};
ghost use Rattle.dual_bounds.specs.Choice.{low_of};

use scheme::LowNote;
use te_model::Bracket;

/// Whether the bound of the second bracket is greater, in whole millionths.
///
/// The bounds themselves are not compared: their cross products may not fit 128 bits.
fn is_greater(best: &Bracket, other: &Bracket) -> bool
    requires best { HasLow best.now }
    requires other { HasLow other.now }
    ensures { result ≡ nat_lt (low_of best.now) (low_of other.now) }
{
    match (best.low(), other.low()) {
        (Some(least), Some(low)) => least < low,
        _ => false,
    }
}

/// The bracket with the greater bound, in whole millionths, or the first where there is none.
pub fn better(best: Bracket, other: Bracket) -> Bracket
    requires best { HasLow best }
    requires other { HasLow other }
    ensures { result ≡ (if nat_lt (low_of best) (low_of other) then other else best) }
{
    if is_greater(&best, &other) {
        other
    } else {
        best
    }
}
