//! The matrices of a step.
ghost use Rattle.std.specs.Prelude.{◌≡◌, ◌<◌, ℕ, All, length};
ghost use Rattle.std.specs.Option.{option_map};
ghost use Rattle.te_model.specs.Pairs.{AreDemands};
ghost use Rattle.traffic_matrix.specs.Traffic.{IsTraffic, demands_in, predicted_in};
ghost use Rattle.series_simulation.specs.Rows.{AreDemandsIfSome};

use te_model::Matrix;
use traffic_matrix::{Series, Traffic};

/// The matrix of the step.
pub fn matrix_of(series: &Series, step: u32) -> &Matrix
    requires step { step < length series.now.steps }
    requires demands { All (λ m. AreDemands (length series.now.pairs.list) m.demand) series.now.steps }
    ensures matrix { result.now.demand ≡ demands_in series.now step }
    ensures demands { AreDemands (length series.now.pairs.list) result.now.demand }
{
    &series.steps.as_slice()[step as usize]
}

/// The predicted matrix of the step, if matrices are predicted.
pub fn predicted_of(traffic: &Traffic, step: u32) -> Option<&Matrix>
    requires traffic { (n : ℕ) × IsTraffic n traffic.now }
    requires step { step < length traffic.now.sent.steps }
    ensures predicted { option_map (λ m. m.now.demand) result ≡ predicted_in traffic.now step }
    ensures demands { AreDemandsIfSome (length traffic.now.sent.pairs.list) (option_map (λ m. m.now.demand) result) }
{
    match &traffic.predicted {
        Some(predicted) => Some(matrix_of(predicted, step)),
        None => None,
    }
}
