//! The plan of an update: the paths of the two routings, in the least number of steps that overloads no link.
ghost use Rattle.std.specs.Prelude.{◌≡◌, ◌^◌, ◌≤◌, ◌<◌, ℕ, All, Err, IfOk, length, map};
ghost use Rattle.te_model.specs.PathRouting.{IsPathRouting};
ghost use Rattle.routing.specs.Routes.{AreDemands};
ghost use Rattle.update_plan.specs.Loads.{IsUpdatePath};
ghost use Rattle.update_plan.specs.Paths.{ArePaths, update_of};
ghost use Rattle.update_plan.specs.Plan.{HasPlanWithin, IsLeastSafe, IsPlanOf, LacksSlack, LacksSlackOn, LeaveRoutesFree};
ghost use Rattle.update_plan.specs.Stages.{HasSmallWeights};
ghost use Rattle.update_plan.specs.Update.{IsSafe};
ghost use Rattle.update_plan.specs.declared.path.TheConstants.{MAX_STEPS};
ghost use Rattle.update_plan.specs.declared.fault.UpdateFault.TheVariants as faults;

use crate::fault::UpdateFault;
use crate::loads::link_loads;
use crate::path::{UpdatePath, UpdatePlan};
use crate::side_by_side::paths_of;
use crate::steps::least_steps;
use routing::Routing;
use std::alloc::Global;
use te_model::{Items, Matrix, Memory, Network, PairRoutes};

/// The least number of steps of these paths.
fn steps_of(
    alloc: Global,
    net: &Network,
    demands: &[u64],
    paths: &[UpdatePath],
) -> Result<u32, UpdateFault>
    requires demands { All (λ d. d ≤ 2 ^ 32) demands.now }
    requires paths { All (IsUpdatePath net.now (length demands.now)) paths.now }
    ensures least { IfOk result (IsLeastSafe (update_of net.now demands.now paths.now)) }
    ensures none { (e : ℕ) → result ≡ Err (faults.NoSlack e) → LacksSlack (update_of net.now demands.now paths.now) e }
{
    let loads = link_loads(alloc, net, demands, paths)?;
    match least_steps(net, &loads) {
        Ok(steps) => Ok(steps),
        Err(link) => Err(UpdateFault::NoSlack(link)),
    }
}

/// The plan of an update from the one routing to the other, by their routes.
pub(crate) fn plan_by_routes(
    alloc: Global,
    net: &Network,
    before: &[PairRoutes],
    after: &[PairRoutes],
    demands: &[u64],
) -> Result<UpdatePlan, UpdateFault>
    requires before { IsPathRouting net.now before.now }
    requires after { IsPathRouting net.now after.now }
    requires count { length after.now ≡ length before.now }
    requires few { length before.now < 2 ^ 32 }
    requires demands { AreDemands (length before.now) demands.now }
    ensures plan { IfOk result (IsPlanOf net.now before.now after.now demands.now) }
    ensures small { IfOk result (λ plan. All HasSmallWeights plan.paths) }
    ensures no_slack { (e : ℕ) → result ≡ Err (faults.NoSlack e) → LacksSlackOn net.now before.now after.now demands.now e }
{
    let paths = paths_of(alloc, before, after)?;
    let steps = steps_of(alloc, net, demands, paths.as_slice())?;
    Ok(UpdatePlan {
        steps,
        paths: Items::new(paths),
    })
}

/// The plan of an update from the routing `before` to the routing `after`: in the least number of steps, of 1 to 1000, in
/// which no link is overloaded by the demands of the matrix, whichever paths have moved inside each step.
///
/// Both are routings of `net` and of the same pairs, fewer than 2^32 of them, and `matrix` has a demand of at most 2^32 for
/// each. Where both leave a share `1 / (k + 1)` of each link free, k up to 1000, there is a plan of at most k steps (SWAN;
/// Hong and others, 2013).
///
/// # Errors
///
/// `NoSlack(link)` exactly where no number of steps up to 1000 is safe: the first link on which 1000 steps are not. `Memory`
/// where memory is wanting.
pub fn plan(
    alloc: Global,
    net: &Network,
    before: &Routing,
    after: &Routing,
    matrix: &Matrix,
) -> Result<UpdatePlan, UpdateFault>
    requires before { IsPathRouting net.now before.now.routes }
    requires after { IsPathRouting net.now after.now.routes }
    requires pairs { map (λ r. r.pair) after.now.routes ≡ map (λ r. r.pair) before.now.routes }
    requires few { length before.now.routes < 2 ^ 32 }
    requires demands { AreDemands (length before.now.routes) matrix.now.demand }
    ensures of { IfOk result (λ plan. ArePaths (length before.now.routes) before.now.routes after.now.routes plan.paths) }
    ensures small { IfOk result (λ plan. All HasSmallWeights plan.paths) }
    ensures safe { IfOk result (λ plan. IsSafe (update_of net.now matrix.now.demand plan.paths) plan.steps) }
    ensures least { IfOk result (λ plan. IsLeastSafe (update_of net.now matrix.now.demand plan.paths) plan.steps) }
    ensures no_slack { (e : ℕ) → result ≡ Err (faults.NoSlack e) → LacksSlackOn net.now before.now.routes after.now.routes matrix.now.demand e }
    ensures slack { (k : ℕ) → 1 ≤ k → k ≤ MAX_STEPS → LeaveRoutesFree net.now before.now.routes after.now.routes matrix.now.demand k →
        HasPlanWithin k result }
{
    plan_by_routes(
        alloc,
        net,
        before.routes.as_slice(),
        after.routes.as_slice(),
        matrix.demand.as_slice(),
    )
}
