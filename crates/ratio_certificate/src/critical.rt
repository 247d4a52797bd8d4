//! The pairs of which one has to go farther before weights need less where some of them rise.
ghost use Rattle.std.specs.Prelude.{◌≡◌, IfOk};
ghost use Rattle.te_model.specs.declared.demand.DemandSet.TheVariants.{All as AllMatrices};
ghost use Rattle.ratio_certificate.specs.Critical.{AreCriticalMarks};
ghost use Rattle.ratio_certificate.specs.Problems.{IsLinkOf, IsMetricOf, IsProblem};
ghost use Rattle.ratio_certificate.specs.Weighting.{AreWeights};

use crate::problem::Problem;
use best_blocks::{Metric, SharedLink, dearest_pair};
use std::alloc::Global;
use te_model::{DemandSet, Memory};

/// For every matrix: a mark for each node, on the source of the pair with the greatest share by distance alone.
fn dearest_source(
    alloc: Global,
    problem: &Problem,
    shared: &SharedLink,
    metric: &Metric,
) -> Result<Vec<bool>, Memory>
    requires problem { IsProblem problem.now }
    requires every { problem.now.set.now ≡ AllMatrices }
    requires shared { IsLinkOf problem.now shared.now }
    requires metric { IsMetricOf problem.now shared.now metric.now }
    requires weights { AreWeights problem.now.net.now metric.now.weights }
    ensures { IfOk result (λ m. AreCriticalMarks problem.now.net.now problem.now.routing.now.routes problem.now.set.now shared.now metric.now.weights m.items) }
{
    let dearest = dearest_pair(shared, metric.distances.as_slice());
    let source = problem.routing.routes.as_slice()[dearest].pair.src;
    let mut marks = vec![in alloc; false; problem.net.names.as_slice().len()]?;
    marks[source as usize] = true;
    Ok(marks)
}

/// The same marks.
fn copy_marks(alloc: Global, marks: &[bool]) -> Result<Vec<bool>, Memory>
    ensures { IfOk result (λ m. m.items ≡ marks.now) }
{
    let copied = Vec::from_slice(alloc, marks)?;
    Ok(copied)
}

/// A mark for each node, on the sources of the critical pairs.
pub fn critical_sources(
    alloc: Global,
    problem: &Problem,
    shared: &SharedLink,
    metric: &Metric,
) -> Result<Vec<bool>, Memory>
    requires problem { IsProblem problem.now }
    requires shared { IsLinkOf problem.now shared.now }
    requires metric { IsMetricOf problem.now shared.now metric.now }
    requires weights { AreWeights problem.now.net.now metric.now.weights }
    ensures { IfOk result (λ m. AreCriticalMarks problem.now.net.now problem.now.routing.now.routes problem.now.set.now shared.now metric.now.weights m.items) }
{
    match problem.set {
        DemandSet::All => dearest_source(alloc, problem, shared, metric),
        DemandSet::Margin { .. } => copy_marks(alloc, shared.marks.as_slice()),
        DemandSet::Box { .. } => copy_marks(alloc, shared.marks.as_slice()),
    }
}
