//! Laws of steps in detail. A law is the contract of a function that does nothing.
ghost use Rattle.step_detail.specs.Laws.{BreakdownsExist, StepsAgreeWithRows, StepsStandInReports};

/// The columns of the lines of a step give its row: the amounts of the pairs sum to those of the row, and the greatest utilisation by what
/// links carry is its peak. What a link is asked is what the weights of the paths ask of the demands, to one unit a path.
pub fn steps_agree_with_rows()
    ensures { StepsAgreeWithRows }
{}

/// The row of each step stands in rows that a report of the plan may have.
pub fn steps_stand_in_reports()
    ensures { StepsStandInReports }
{}

/// Each step of a series can be broken down, by a plan in range.
pub fn breakdowns_exist()
    ensures { BreakdownsExist }
{}
