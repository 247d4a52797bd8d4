//! What holds of each plan that is read.
ghost use Rattle.plan.specs.Laws.{PlansAreInRange};

/// What the bytes of a plan say is in range, by the definitions alone.
pub fn plans_are_in_range()
    ensures { PlansAreInRange }
{}
