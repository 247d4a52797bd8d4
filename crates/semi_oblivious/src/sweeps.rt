//! Routings over the fixed paths by sweeps.
ghost use Rattle.std.specs.Prelude.{◌≡◌, ◌^◌, ◌<◌, ◌≤◌, All, IfOk, IsTrue, length};
ghost use Rattle.te_model.specs.Network.{is_well_formed, link_count};
ghost use Rattle.te_model.specs.PathRouting.{IsPathRouting};
ghost use Rattle.routing.specs.Routes.{AreDemands};
ghost use Rattle.rate_sweeps.specs.Descents.{BothKeep, IsDescent};
ghost use Rattle.rate_sweeps.specs.Sweeps.{IsDualState};
ghost use Rattle.semi_oblivious.specs.Semi.{KeepsTo};
ghost use Rattle.semi_oblivious.specs.Sweeps.{AreFixedSweeps, IsOverFixed};

use rate_sweeps::{
    BOUND_STAGES, COUNTED, Descent, DualState, FIRST_BOUND_DIVISOR, FIRST_KEPT_DIVISOR,
    FIRST_STAGE_DIVISOR, MAX_DIVISOR, SECOND_KEPT_DIVISOR, STAGES, SWEEPS, Sweep, TURNS, UNCOUNTED,
    add_counted, cheapest_paths, end_sweep, first_descent, first_dual_state, is_over, lesser,
    load_cheapest, next_lengths, offer, routing_by, take_sweep, take_turn,
};
use routing::Routing;
use std::alloc::Global;
use te_model::{Items, Matrix, Memory, Network};

/// More paths than a pair has: the paths of a descent are fixed.
const DESCENT_PATH_LIMIT: usize = 33;

/// The sweeps of a stage that count. In each the pairs take their cheapest fixed paths.
fn stage(
    alloc: Global,
    net: &Network,
    fixed: &Routing,
    matrix: &Matrix,
    state: &mut DualState,
    step_divisor: u64,
) -> Result<Vec<Sweep>, Memory>
    requires network { IsTrue (is_well_formed net.now) }
    requires fixed { IsPathRouting net.now fixed.now.routes }
    requires pairs { length fixed.now.routes < 2 ^ 32 }
    requires demands { AreDemands (length fixed.now.routes) matrix.now.demand }
    requires state { IsDualState net.now state.old }
    requires step_divisor { (1 ≤ step_divisor) × (step_divisor ≤ 128) }
    ensures sweeps { IfOk result (λ s. AreFixedSweeps 30 net.now fixed.now.routes s.items) }
    ensures state { IsDualState net.now state.new }
{
    let mut sweeps = Vec::with_capacity(alloc, COUNTED)?;
    for i in 0..UNCOUNTED + COUNTED {
        let paths = cheapest_paths(alloc, net, fixed, &state.lengths)?;
        let weight = take_sweep(alloc, net, matrix, &paths, state, step_divisor)?;
        add_counted(&mut sweeps, i, weight, paths)?;
    }
    Ok(sweeps)
}

/// Sweeps of a stage of which only the loads are made. In each the pairs take their cheapest fixed paths.
fn sweep_loads(
    alloc: Global,
    net: &Network,
    fixed: &Routing,
    matrix: &Matrix,
    state: &mut DualState,
    step_divisor: u64,
) -> Result<(), Memory>
    requires network { IsTrue (is_well_formed net.now) }
    requires fixed { IsPathRouting net.now fixed.now.routes }
    requires pairs { length fixed.now.routes < 2 ^ 32 }
    requires demands { AreDemands (length fixed.now.routes) matrix.now.demand }
    requires state { IsDualState net.now state.old }
    requires step_divisor { (1 ≤ step_divisor) × (step_divisor ≤ 128) }
    ensures state { IsDualState net.now state.new }
{
    for _ in 0..SWEEPS {
        load_cheapest(net, fixed, matrix, &state.lengths, &mut state.loads);
        end_sweep(alloc, net, state, step_divisor)?;
    }
    Ok(())
}

/// So many stages of such sweeps, in the first of which steps are divided by `first_divisor`.
fn sweep_stages(
    alloc: Global,
    net: &Network,
    fixed: &Routing,
    matrix: &Matrix,
    state: &mut DualState,
    stages: usize,
    first_divisor: u64,
) -> Result<(), Memory>
    requires network { IsTrue (is_well_formed net.now) }
    requires fixed { IsPathRouting net.now fixed.now.routes }
    requires pairs { length fixed.now.routes < 2 ^ 32 }
    requires demands { AreDemands (length fixed.now.routes) matrix.now.demand }
    requires state { IsDualState net.now state.old }
    requires first_divisor { (1 ≤ first_divisor) × (first_divisor ≤ 128) }
    ensures state { IsDualState net.now state.new }
{
    let mut step_divisor = first_divisor;
    for _ in 0..stages {
        sweep_loads(alloc, net, fixed, matrix, state, step_divisor)?;
        step_divisor = (2 * step_divisor).min(MAX_DIVISOR);
    }
    Ok(())
}

/// The better one of the given routing and that of a stage of sweeps.
fn better_mix(
    alloc: Global,
    net: &Network,
    fixed: &Routing,
    matrix: &Matrix,
    best: Routing,
    state: &mut DualState,
    step_divisor: u64,
) -> Result<Routing, Memory>
    requires network { IsTrue (is_well_formed net.now) }
    requires fixed { IsPathRouting net.now fixed.now.routes }
    requires pairs { length fixed.now.routes < 2 ^ 32 }
    requires demands { AreDemands (length fixed.now.routes) matrix.now.demand }
    requires best { IsOverFixed net.now matrix.now.demand fixed.now.routes best.routes }
    requires state { IsDualState net.now state.old }
    requires step_divisor { (1 ≤ step_divisor) × (step_divisor ≤ 128) }
    ensures routing { IfOk result (λ r. IsOverFixed net.now matrix.now.demand fixed.now.routes r.routes) }
    ensures state { IsDualState net.now state.new }
{
    let sweeps = stage(alloc, net, fixed, matrix, state, step_divisor)?;
    let mixed = routing_by(alloc, net, &sweeps, fixed)?;
    let better = lesser(alloc, net, matrix, best, mixed)?;
    Ok(better)
}

/// The best one of the given routing and those of two stages of sweeps. A stage may go astray.
fn best_mix(
    alloc: Global,
    net: &Network,
    fixed: &Routing,
    matrix: &Matrix,
    best: Routing,
    state: &mut DualState,
) -> Result<Routing, Memory>
    requires network { IsTrue (is_well_formed net.now) }
    requires fixed { IsPathRouting net.now fixed.now.routes }
    requires pairs { length fixed.now.routes < 2 ^ 32 }
    requires demands { AreDemands (length fixed.now.routes) matrix.now.demand }
    requires best { IsOverFixed net.now matrix.now.demand fixed.now.routes best.routes }
    requires state { IsDualState net.now state.old }
    ensures routing { IfOk result (λ r. IsOverFixed net.now matrix.now.demand fixed.now.routes r.routes) }
    ensures state { IsDualState net.now state.new }
{
    sweep_stages(
        alloc,
        net,
        fixed,
        matrix,
        state,
        STAGES,
        FIRST_STAGE_DIVISOR,
    )?;
    let first = better_mix(alloc, net, fixed, matrix, best, state, FIRST_KEPT_DIVISOR)?;
    let second = better_mix(alloc, net, fixed, matrix, first, state, SECOND_KEPT_DIVISOR)?;
    Ok(second)
}

/// The descent after a turn to the cheapest fixed paths. Their lengths are offered.
fn turn(
    alloc: Global,
    net: &Network,
    fixed: &Routing,
    matrix: &Matrix,
    descent: Descent,
    state: &mut DualState,
) -> Result<Descent, Memory>
    requires network { IsTrue (is_well_formed net.now) }
    requires fixed { IsPathRouting net.now fixed.now.routes }
    requires pairs { length fixed.now.routes < 2 ^ 32 }
    requires demands { AreDemands (length fixed.now.routes) matrix.now.demand }
    requires descent { IsDescent net.now matrix.now.demand fixed.now.routes descent }
    requires keeps { BothKeep (KeepsTo fixed.now.routes) descent }
    requires state { IsDualState net.now state.old }
    ensures descent { IfOk result (IsDescent net.now matrix.now.demand fixed.now.routes) }
    ensures keeps { IfOk result (BothKeep (KeepsTo fixed.now.routes)) }
    ensures state { IsDualState net.now state.new }
{
    let lengths = next_lengths(alloc, net, matrix, &descent)?;
    let paths = cheapest_paths(alloc, net, fixed, &lengths)?;
    offer(alloc, net, matrix, &paths, &lengths, state)?;
    take_turn(
        alloc,
        net,
        matrix,
        descent,
        &paths,
        &lengths,
        DESCENT_PATH_LIMIT,
    )
}

/// The end of a descent from the given routing, by turns to the cheapest fixed paths.
fn end_of_descent(
    alloc: Global,
    net: &Network,
    fixed: &Routing,
    matrix: &Matrix,
    start: Routing,
    state: &mut DualState,
) -> Result<Descent, Memory>
    requires network { IsTrue (is_well_formed net.now) }
    requires fixed { IsPathRouting net.now fixed.now.routes }
    requires pairs { length fixed.now.routes < 2 ^ 32 }
    requires demands { AreDemands (length fixed.now.routes) matrix.now.demand }
    requires start { IsOverFixed net.now matrix.now.demand fixed.now.routes start.routes }
    requires state { IsDualState net.now state.old }
    ensures descent { IfOk result (IsDescent net.now matrix.now.demand fixed.now.routes) }
    ensures keeps { IfOk result (BothKeep (KeepsTo fixed.now.routes)) }
    ensures state { IsDualState net.now state.new }
{
    let mut descent = first_descent(alloc, net, matrix, start)?;
    for _ in 0..TURNS {
        if is_over(descent.pace) {
            return Ok(descent);
        }
        descent = turn(alloc, net, fixed, matrix, descent, state)?;
    }
    Ok(descent)
}

/// The fixed routing, or a better one over its paths by sweeps and a descent. The sweeps after the descent begin with the lengths of
/// its end, which are great on the links that bound the utilisation.
fn best_routing(
    alloc: Global,
    net: &Network,
    fixed: &Routing,
    matrix: &Matrix,
    state: &mut DualState,
) -> Result<Routing, Memory>
    requires network { IsTrue (is_well_formed net.now) }
    requires fixed { IsPathRouting net.now fixed.now.routes }
    requires pairs { length fixed.now.routes < 2 ^ 32 }
    requires demands { AreDemands (length fixed.now.routes) matrix.now.demand }
    requires state { IsDualState net.now state.old }
    ensures routing { IfOk result (λ r. IsOverFixed net.now matrix.now.demand fixed.now.routes r.routes) }
    ensures state { IsDualState net.now state.new }
{
    let own = fixed.copy(alloc)?;
    let best = best_mix(alloc, net, fixed, matrix, own, state)?;
    let descent = end_of_descent(alloc, net, fixed, matrix, best, state)?;
    state.lengths = next_lengths(alloc, net, matrix, &descent)?;
    sweep_stages(
        alloc,
        net,
        fixed,
        matrix,
        state,
        BOUND_STAGES,
        FIRST_BOUND_DIVISOR,
    )?;
    Ok(descent.best)
}

/// The fixed routing, or a better one over its paths by sweeps and a descent, and lengths to bound the utilisation of all such
/// routings.
///
/// `matrix` has one demand for each pair. `Memory` comes where memory is wanting.
pub fn sweep(
    alloc: Global,
    net: &Network,
    fixed: &Routing,
    matrix: &Matrix,
) -> Result<(Routing, Items<u64>), Memory>
    requires network { IsTrue (is_well_formed net.now) }
    requires fixed { IsPathRouting net.now fixed.now.routes }
    requires pairs { length fixed.now.routes < 2 ^ 32 }
    requires demands { AreDemands (length fixed.now.routes) matrix.now.demand }
    ensures routing { IfOk result (λ r. IsOverFixed net.now matrix.now.demand fixed.now.routes r.0.routes) }
    ensures count { IfOk result (λ r. length r.1 ≡ link_count net.now) }
    ensures small { IfOk result (λ r. All (λ x. x ≤ 2 ^ 28) r.1) }
{
    let mut state = first_dual_state(alloc, net)?;
    // Where no link is used there is nothing to better.
    if fixed.greatest_utilisation(alloc, net, matrix)? == 0 {
        return Ok((fixed.copy(alloc)?, Items::new(state.best_lengths)));
    }
    let routing = best_routing(alloc, net, fixed, matrix, &mut state)?;
    Ok((routing, Items::new(state.best_lengths)))
}
