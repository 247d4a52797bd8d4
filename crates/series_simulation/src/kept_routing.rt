//! A step by a routing that is kept for every matrix.
ghost use Rattle.std.specs.Prelude.{◌≡◌, ◌<◌, IfOk, IsTrue, length};
ghost use Rattle.te_model.specs.Network.{is_well_formed, link_count, node_count};
ghost use Rattle.routing.specs.Routes.{HasFewPaths, IsRoutingOf};
ghost use Rattle.traffic_matrix.specs.Limits.{IsSeries};
ghost use Rattle.traffic_matrix.specs.Traffic.{demands_in};
ghost use Rattle.series_simulation.specs.KeptRouting.{IsKeptRow};
ghost use Rattle.series_simulation.specs.Simulation.{IsConservedStep};

use crate::peak::peak;
use crate::recovery::{mode_of, without_rerouting};
use crate::step_matrices::matrix_of;
use crate::step_row::StepRow;
use crate::step_simulation::simulate;
use plan::Recovery;
use routing::Routing;
use std::alloc::Global;
use te_model::{Memory, Network};
use traffic_matrix::Series;

/// The row of a step in which the marked links have failed, by a routing of the pairs of the series that is kept for every matrix.
///
/// What is left of the routing takes the demands of the step; `Reroute` and `Adapt` are as `Scale`, since nothing is made anew. No bound is
/// stated. `failed` has one mark for each link. `Memory` comes where memory is wanting.
pub fn kept_row(
    alloc: Global,
    net: &Network,
    routing: &Routing,
    series: &Series,
    failed: &[bool],
    recovery: Recovery,
    step: u32,
) -> Result<StepRow, Memory>
    requires network { IsTrue (is_well_formed net.now) }
    requires series { IsSeries (node_count net.now) series.now }
    requires routing { IsRoutingOf net.now series.now.pairs.list routing.now.routes }
    requires few { HasFewPaths 4096 routing.now.routes }
    requires marks { length failed.now ≡ link_count net.now }
    requires step { step < length series.now.steps }
    ensures number { IfOk result (λ row. row.step ≡ step) }
    ensures row { IfOk result (IsKeptRow routing.now.routes net.now failed.now series.now.pairs.list (demands_in series.now step) recovery) }
    ensures conserved { IfOk result (λ row. IsConservedStep (demands_in series.now step) row.result) }
{
    let matrix = matrix_of(series, step);
    let parts = routing.greatest_utilisation(alloc, net, matrix)?;
    let kept = without_rerouting(recovery);
    let mode = mode_of(kept);
    let pairs = &series.pairs;
    let simulation = simulate(alloc, mode, net, failed, pairs, matrix, routing)?;
    let result = simulation.result;
    let peak = peak(net, result.carried.as_slice());
    Ok(StepRow {
        step,
        result,
        peak,
        parts,
        low: None,
    })
}
