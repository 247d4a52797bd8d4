//! Laws of witnesses. A law of the definitions is the contract of a function that does nothing.
ghost use Rattle.ratio_witness.specs.Text.{WitnessTextsAreShort};
ghost use Rattle.ratio_witness.specs.Witness.{EndsBoundRoutings, LowerBoundsLimitRivals, WitnessesShow};

/// A matrix of the set and a rival routing of it show that no ratio is below their performance ratio.
pub fn witnesses_show()
    ensures { WitnessesShow }
{}

/// Where no routing of a matrix stays below a utilisation, no rival of it shows more than the routing's own over that.
pub fn lower_bounds_limit_rivals()
    ensures { LowerBoundsLimitRivals }
{}

/// Each routing of a matrix uses the links out of a pair's source, and those into its destination, by the pair's demand
/// at least.
pub fn ends_bound_routings()
    ensures { EndsBoundRoutings }
{}

/// The text of a witness of a valid head has fewer than 340,000,000 bytes.
pub fn witness_texts_are_short()
    ensures { WitnessTextsAreShort }
{}
