//! The demand set of a plan.
ghost use Rattle.std.specs.Prelude.{◌≡◌, IfOk};
ghost use Rattle.experiment.specs.Published.{margin_set, published_set};

use crate::envelope::envelope_of;
use plan::Experiment;
use std::alloc::Global;
use te_model::{DemandSet, Memory};
use traffic_matrix::{Series, first_matrix};

/// Every matrix, or those within the margin of the first one.
fn margin_set(
    alloc: Global,
    margin: Option<(u64, u64)>,
    series: &Series,
) -> Result<DemandSet, Memory>
    ensures { IfOk result (λ set. set ≡ margin_set margin series.now) }
{
    match margin {
        Some((num, den)) => {
            let base = first_matrix(alloc, series)?;
            Ok(DemandSet::Margin { num, den, base })
        }
        None => Ok(DemandSet::All),
    }
}

/// The matrices for which the plan publishes: the envelope of the series where it asks for it, or else every matrix, or those within
/// its margin of the first one.
pub fn published_set(alloc: Global, plan: &Experiment, series: &Series) -> Result<DemandSet, Memory>
    ensures { IfOk result (λ set. set ≡ published_set plan.now series.now) }
{
    if plan.envelope {
        envelope_of(alloc, series)
    } else {
        margin_set(alloc, plan.margin, series)
    }
}
