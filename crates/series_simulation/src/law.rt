//! The rows of a scheme over a series and its steps exist where its plans and routings do.
ghost use Rattle.series_simulation.specs.KeptRouting.{KeptRowsExist, KeptRowsHaveParts};
ghost use Rattle.series_simulation.specs.Laws.{AdaptedRatesStand, StepRowsExist, PredictionsChangeNothing, StepsExist, StepsStandInRows};

use scheme::Adaptive;

/// Where pairs that all have a path have a plan, a plan and demands have a routing of at most 4,096 paths of each pair, and so have demands and
/// any paths if the plan keeps a set of paths, every series has rows, whichever links fail and however traffic goes on then.
pub fn step_rows_exist<S: Adaptive>(_scheme: &S)
    ensures { StepRowsExist S.Scheme.PATHS (S.Scheme.is_plan _scheme.now) (S.Scheme.relates _scheme.now) S.Note.low (S.path_set_routes _scheme.now) (S.adapts _scheme.now) }
{}

/// Under the same premises each step of every series exists, with the paths that its demands take.
pub fn steps_exist<S: Adaptive>(_scheme: &S)
    ensures { StepsExist S.Scheme.PATHS (S.Scheme.is_plan _scheme.now) (S.Scheme.relates _scheme.now) S.Note.low (S.path_set_routes _scheme.now) (S.adapts _scheme.now) }
{}

/// And the row of each step stands in rows of the series: what is said of a step in detail is said of a row of a report.
pub fn steps_stand_in_rows<S: Adaptive>(_scheme: &S)
    ensures { StepsStandInRows S.Scheme.PATHS (S.Scheme.is_plan _scheme.now) (S.Scheme.relates _scheme.now) S.Note.low (S.path_set_routes _scheme.now) (S.adapts _scheme.now) }
{}

/// A scheme whose routing is one for every matrix, and that states no bound and chooses no rates anew, has just the rows that it has without
/// predictions.
pub fn predictions_change_nothing<S: Adaptive>(_scheme: &S)
    ensures { PredictionsChangeNothing S.Scheme.PATHS (S.Scheme.is_plan _scheme.now) (S.Scheme.relates _scheme.now) S.Note.low (S.path_set_routes _scheme.now) (S.adapts _scheme.now) }
{}

/// Rates that are chosen anew hold no failed link. So no failed link has a load, and what is said of their utilisation and its bound on the
/// whole network is said of the network that is left.
pub fn adapted_rates_stand<S: Adaptive>(_scheme: &S)
    ensures { AdaptedRatesStand S.Scheme.PATHS (S.Scheme.is_plan _scheme.now) (S.Scheme.relates _scheme.now) S.Note.low (S.path_set_routes _scheme.now) (S.adapts _scheme.now) }
{}

/// A series has rows of a routing of its pairs that is kept, whichever links fail and however traffic goes on then.
pub fn kept_rows_exist()
    ensures { KeptRowsExist }
{}

/// The greatest utilisation of each such row is that of the routing by the demands of the step, whichever links fail.
pub fn kept_rows_have_parts()
    ensures { KeptRowsHaveParts }
{}
