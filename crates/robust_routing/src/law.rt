//! What exists of plans.
ghost use Rattle.robust_routing.specs.Laws.{RobustPlansExist};

/// Pairs with paths have a plan of so many paths a pair, whatever the number is.
pub fn robust_plans_exist()
    ensures { RobustPlansExist }
{}
