//! What is known of fixed paths and adapted routings beyond any one call.
ghost use Rattle.semi_oblivious.specs.Laws.{AdaptedRatesExist, AdaptedRoutingsExist, FixedRoutingsExist};

/// Every routing has fixed paths: the heaviest ones of each pair.
pub fn fixed_routings_exist()
    ensures { FixedRoutingsExist }
{}

/// Over the fixed paths of a plan each matrix has an adapted routing, with its bracket.
pub fn adapted_routings_exist()
    ensures { AdaptedRoutingsExist }
{}

/// So has each matrix over any given paths, no more than 32 of a pair, as those that failed links leave.
pub fn adapted_rates_exist()
    ensures { AdaptedRatesExist }
{}
