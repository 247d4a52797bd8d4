//! Laws of lengths and multipliers. Each is the contract of a function that does nothing.
ghost use Rattle.multiplicative_lengths.specs.Limits.{LengthsAreModerate, MultipliersAtMostDouble};

/// By multipliers of at least 1, each link has a length of 1 to 2^28.
pub fn lengths_are_moderate()
    ensures { LengthsAreModerate }
{}

/// In a round no multiplier falls, and each at most doubles.
pub fn multipliers_at_most_double()
    ensures { MultipliersAtMostDouble }
{}
