//! Updates: the plan of two routings, and the weights of the stages of a plan. What is answered on two certificates is shown by whole calls.
ghost use Rattle.std.specs.Prelude.{◌≡◌, ◌≤◌, All, IfOk};
ghost use Rattle.te_model.specs.Pairs.{AreDemands};
ghost use Rattle.update_plan.specs.Stages.{HasSmallWeights};

use crate::cases::{Case, all_hold};
use crate::ratio_certificate_tests::straight_routing;
use sample_networks::three_nodes;
use std::alloc::{AllocError, Global};
use te_model::{Items, Matrix, SHARE_UNIT};
use update_plan::{UpdateFault, UpdatePath, UpdatePlan, plan};

// The demand of each pair, and the number of steps of the plan that moves nothing of the straight routes, or why there is none.
struct Stay(u32, Result<u32, UpdateFault>);

const STAYS: &[Stay] = &[
    // What does not move asks for no room.
    Stay(10, Ok(1)),
    Stay(11, Err(UpdateFault::NoSlack(0))),
];

/// The matrix of so many pairs with this demand each.
pub fn even_matrix(alloc: Global, count: usize, demand: u32) -> Result<Matrix, AllocError>
    ensures { IfOk result (λ m. AreDemands count m.demand) }
{
    let demand = vec![in alloc; u64::from(demand); count]?;
    Ok(Matrix {
        demand: Items::new(demand),
    })
}

// Whether the plan from the straight routes to themselves is that of the row.
fn is_planned(alloc: Global, stay: &Stay) -> Result<bool, AllocError> {
    let net = three_nodes(alloc)?;
    let routing = straight_routing(alloc)?;
    let matrix = even_matrix(alloc, 2, stay.0)?;
    Ok(match plan(alloc, &net, &routing, &routing, &matrix) {
        Ok(plan) => stay.1 == Ok(plan.steps),
        Err(fault) => stay.1 == Err(fault),
    })
}

impl Case for Stay {
    fn holds(&self, alloc: Global) -> bool {
        is_planned(alloc, self) == Ok(true)
    }
}

// Two pairs change sides. The pair of a path, whether it has the demand before the update or else after it, and its links.
type Side<'a> = (u32, bool, &'a [u32]);

const SIDES: &[Side] = &[
    (0, true, &[0, 4]),
    (0, false, &[1, 5]),
    (1, false, &[2, 4]),
    (1, true, &[3, 5]),
];

// A stage of the change in four steps, and the weights of its paths.
struct Stage<'a>(u32, &'a [u64]);

const STAGES: &[Stage] = &[
    Stage(0, &[4_000_000, 0, 0, 4_000_000]),
    Stage(1, &[3_000_000, 1_000_000, 1_000_000, 3_000_000]),
    Stage(4, &[0, 4_000_000, 4_000_000, 0]),
];

fn path_of(alloc: Global, side: &Side) -> Result<UpdatePath, AllocError>
    ensures { IfOk result HasSmallWeights }
{
    let links = Vec::from_slice(alloc, side.2)?;
    Ok(UpdatePath {
        pair: side.0,
        before: if side.1 { SHARE_UNIT } else { 0 },
        after: if side.1 { 0 } else { SHARE_UNIT },
        links: Items::new(links),
    })
}

fn plan_of(alloc: Global, sides: &[Side]) -> Result<UpdatePlan, AllocError>
    ensures steps { IfOk result (λ plan. plan.steps ≡ 4) }
    ensures small { IfOk result (λ plan. All HasSmallWeights plan.paths) }
{
    let mut paths = Vec::new(alloc);
    for side in sides {
        paths.push(path_of(alloc, side)?)?;
    }
    Ok(UpdatePlan {
        steps: 4,
        paths: Items::new(paths),
    })
}

// Whether the stage of the plan has these weights.
fn has_weights(alloc: Global, plan: &UpdatePlan, stage: u32, weights: &[u64]) -> bool
    requires steps { plan.now.steps ≡ 4 }
    requires stage { stage ≤ 4 }
    requires small { All HasSmallWeights plan.now.paths }
{
    match plan.weights(alloc, stage) {
        Ok(found) => found.as_slice() == weights,
        Err(_) => false,
    }
}

impl Case for Stage<'_> {
    fn holds(&self, alloc: Global) -> bool {
        match plan_of(alloc, SIDES) {
            Ok(plan) => self.0 <= 4 && has_weights(alloc, &plan, self.0, self.1),
            Err(_) => false,
        }
    }
}

#[test]
fn routings_are_planned(rt: HostRuntime) {
    all_hold(&rt, rt.alloc(), STAYS);
}

#[test]
fn stages_have_their_weights(rt: HostRuntime) {
    all_hold(&rt, rt.alloc(), STAGES);
}
