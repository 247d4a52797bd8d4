//! Laws of safe updates. Each is the contract of a function that does nothing.
ghost use Rattle.update_plan.specs.Answer.{OneUpdateText, PlanTextsAreShort, SomeUpdateText};
ghost use Rattle.update_plan.specs.Laws.{LoadsAreOfRoutings, OneListOfPaths, SafeByEnds, SafeByQuotients, SafeByStages, SafeForMore, SafeWithSlack};

/// Safe is one test for each link and stage.
pub fn safe_by_stages()
    ensures { SafeByStages }
{}

/// Of the stages the first and the last decide.
pub fn safe_by_ends()
    ensures { SafeByEnds }
{}

/// More steps are no less safe.
pub fn safe_for_more()
    ensures { SafeForMore }
{}

/// The least number of steps is the greatest quotient over the links.
pub fn safe_by_quotients()
    ensures { SafeByQuotients }
{}

/// Where both routings leave a share of each link free, few steps are safe (the bound of SWAN).
pub fn safe_with_slack()
    ensures { SafeWithSlack }
{}

/// The paths of two routings, side by side, are one list.
pub fn one_list_of_paths()
    ensures { OneListOfPaths }
{}

/// By its weights before and after, the load of an update is that of each routing.
pub fn loads_are_of_routings()
    ensures { LoadsAreOfRoutings }
{}

/// There is an answer on an update between the routings of any two heads.
pub fn some_update_text()
    ensures { SomeUpdateText }
{}

/// There is one answer on an update: it is a function of the two heads, the declared pairs and the matrix.
pub fn one_update_text()
    ensures { OneUpdateText }
{}

/// The text of a plan between the routings of two valid heads has fewer than 700,000,000 bytes.
pub fn plan_texts_are_short()
    ensures { PlanTextsAreShort }
{}
