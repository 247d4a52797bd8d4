//! What is known of brackets beyond any one call.
ghost use Rattle.dual_bounds.specs.Laws.{BracketsExist, BracketsOnPathsExist};

/// Every routing has a bracket of its matrix, whose bound from below holds for all routings.
pub fn brackets_exist()
    ensures { BracketsExist }
{}

/// Every routing has a bracket of its matrix over the paths of a fixed routing.
pub fn brackets_on_paths_exist()
    ensures { BracketsOnPathsExist }
{}
