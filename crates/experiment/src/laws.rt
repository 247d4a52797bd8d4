//! Laws of what is published and reported. A law is the contract of a function that does nothing.
ghost use Rattle.std.specs.Prelude.{ℕ, List};
ghost use Rattle.te_model.specs.declared.network.Network.{Network};
ghost use Rattle.traffic_matrix.specs.declared.series.Series.{Series};
ghost use Rattle.plan.specs.declared.experiment.Experiment.{Experiment};
ghost use Rattle.experiment.specs.Laws.{AdaptedIsNoGreaterThanScaled, PredictionsChangeNoOblivious, PublicationsExist, ReportsExist};
ghost use Rattle.experiment.specs.Published.{IsAccepted, IsPublished};

/// Every published file spells a valid certificate of which no inequality fails, so a check of it answers yes.
pub fn published_files_are_accepted()
    ensures { (plan : Experiment) → (network : Network) → (series : Series) → (bytes : List ℕ) →
        IsPublished plan network series bytes → IsAccepted bytes }
{}

/// Where each declared pair has a path, there is a file that a plan in range publishes.
pub fn publications_exist()
    ensures { PublicationsExist }
{}

/// There is a report of the schemes of a plan in range.
pub fn reports_exist()
    ensures { ReportsExist }
{}

/// An oblivious scheme has just the rows that it has without predictions.
pub fn predictions_change_no_oblivious()
    ensures { PredictionsChangeNoOblivious }
{}

/// Where a link has failed, no row of the recovery `adapt` for the scheme `smore` has a greater utilisation than the rates of its fixed paths
/// have, scaled to the paths that stand: for the pairs of which a path stands, and without predictions.
pub fn adapted_is_no_greater_than_scaled()
    ensures { AdaptedIsNoGreaterThanScaled }
{}
