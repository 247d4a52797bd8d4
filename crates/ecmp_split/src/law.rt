//! What holds of equal splits.
ghost use Rattle.ecmp_split.specs.Laws.{EqualSplitsAreOne, MultipathSplitsAreOne, MultipathSplitsExist};

/// No two flows are equal splits between the same nodes: the definition determines the flow.
pub fn equal_splits_are_one()
    ensures { EqualSplitsAreOne }
{}

/// The rule of `Ecmp` gives each pair one list of weighted paths.
pub fn multipath_splits_are_one()
    ensures { MultipathSplitsAreOne }
{}

/// The rule of `Ecmp` gives each pair with a path a split of its demand over at most as many paths as a network may have links.
pub fn multipath_splits_exist()
    ensures { MultipathSplitsExist }
{}
