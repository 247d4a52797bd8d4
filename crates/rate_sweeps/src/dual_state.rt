//! Where sweeps stand.
ghost use Rattle.std.specs.Prelude.{◌≡◌, ◌+◌, ◌*◌, ◌^◌, ◌<◌, ◌≤◌, ℕ, All, IfOk, IsTrue, OnOk, length, map, max, min, slice_index};
ghost use Rattle.te_model.specs.Network.{is_well_formed, link_count};
ghost use Rattle.routing.specs.Routes.{AreDemands};
ghost use Rattle.centred_steps.specs.UsageSpread.{spread_by};
ghost use Rattle.centred_steps.specs.Loads.{AreLoadsWithin, AreSmall, IsUsageSpread, times_on};
ghost use Rattle.centred_steps.specs.Weights.{AreWeightsUpTo};
ghost use Rattle.rate_sweeps.specs.Bounds.{sweep_loads, weight_by};
ghost use Rattle.rate_sweeps.specs.Sweeps.{AreOnLinks, IsDualState, IsWeight, KeepsBetter, links_in};

use centred_steps::{FIRST_WEIGHT, UsageSpread, add_load, clear_loads, spread_of, step_weights};
use std::alloc::Global;
use te_model::{Matrix, Memory, Network, Path};

/// What a sweep counts at most, so that those of a stage count no more than the unit of shares.
const MAX_WEIGHT: u128 = 30_000;

/// Where sweeps stand.
#[derive(Drop)]
pub struct DualState {
    /// The length of each link in the next sweep.
    pub lengths: Vec<u64>,
    /// The load of each link in the last sweep.
    pub loads: Vec<u128>,
    /// The greatest bound of a sweep from below, in millionths.
    pub best_bound: u128,
    /// The lengths of that sweep.
    pub best_lengths: Vec<u64>,
}

/// Before the first sweep, when the lengths are all the same.
pub fn first_dual_state(alloc: Global, net: &Network) -> Result<DualState, Memory>
    ensures { IfOk result (IsDualState net.now) }
{
    let links = net.links.as_slice().len();
    Ok(DualState {
        lengths: vec![in alloc; FIRST_WEIGHT; links]?,
        loads: vec![in alloc; 0; links]?,
        best_bound: 0,
        best_lengths: vec![in alloc; FIRST_WEIGHT; links]?,
    })
}

/// Adds the amount to the load of each of the links.
pub fn add_on(loads: &mut [u128], links: &[u32], amount: u128)
    requires links { All (λ h. h < length loads.old) links.now }
    requires loads { AreSmall loads.old }
    ensures small { AreSmall loads.new }
    ensures added { (e : ℕ) → e < length loads.old → slice_index loads.new e ≡ min (2 ^ 66) (slice_index loads.old e + amount * times_on links.now e) }
{
    for link in links {
        add_load(loads, *link as usize, amount);
    }
}

/// Writes the loads of the sweep in which the pairs take these paths.
fn write_loads(net: &Network, matrix: &Matrix, paths: &[Path], loads: &mut [u128])
    requires demands { AreDemands (length paths.now) matrix.now.demand }
    requires paths { AreOnLinks net.now (map links_in paths.now) }
    requires count { length loads.old ≡ link_count net.now }
    ensures within { AreLoadsWithin net.now loads.new }
    ensures loads { loads.new ≡ sweep_loads net.now matrix.now.demand (map links_in paths.now) }
{
    clear_loads(loads);
    let demand = matrix.demand.as_slice();
    for p in 0..paths.len() {
        add_on(loads, paths[p].links.as_slice(), u128::from(demand[p]));
    }
}

/// What a sweep counts: the more, the nearer the most used link is to the middle. For a step is no longer where the loads differ
/// more.
fn weight_of(spread: UsageSpread) -> u64
    requires { IsUsageSpread spread }
    ensures limits { IsWeight result }
    ensures weight { result ≡ weight_by spread }
{
    let weight = spread.mean * 100 / spread.deviation;
    weight.max(1).min(MAX_WEIGHT) as u64
}

/// The usage in the middle where the pairs take these paths, by the lengths. Where each takes its cheapest path by the lengths,
/// the mean bounds from below (Garg and Könemann, 2007).
fn spread_under(
    net: &Network,
    matrix: &Matrix,
    paths: &[Path],
    lengths: &[u64],
    loads: &mut [u128],
) -> UsageSpread
    requires network { IsTrue (is_well_formed net.now) }
    requires demands { AreDemands (length paths.now) matrix.now.demand }
    requires paths { AreOnLinks net.now (map links_in paths.now) }
    requires count { length lengths.now ≡ link_count net.now }
    requires lengths { AreWeightsUpTo (2 ^ 27) lengths.now }
    requires loads { length loads.old ≡ link_count net.now }
    ensures spread { IsUsageSpread result }
    ensures exact { result ≡ spread_by net.now lengths.now loads.new }
    ensures within { AreLoadsWithin net.now loads.new }
    ensures loads { loads.new ≡ sweep_loads net.now matrix.now.demand (map links_in paths.now) }
{
    write_loads(net, matrix, paths, loads);
    spread_of(net, lengths, loads)
}

/// Keeps the lengths, by which the pairs take these paths, where they bound better than those before.
///
/// `Memory` comes where memory is wanting.
pub fn offer(
    alloc: Global,
    net: &Network,
    matrix: &Matrix,
    paths: &[Path],
    lengths: &[u64],
    state: &mut DualState,
) -> Result<(), Memory>
    requires network { IsTrue (is_well_formed net.now) }
    requires demands { AreDemands (length paths.now) matrix.now.demand }
    requires paths { AreOnLinks net.now (map links_in paths.now) }
    requires count { length lengths.now ≡ link_count net.now }
    requires lengths { AreWeightsUpTo (2 ^ 27) lengths.now }
    requires state { IsDualState net.now state.old }
    ensures state { IsDualState net.now state.new }
    ensures better { KeepsBetter lengths.now state.old state.new }
    ensures loads { state.new.loads.items ≡ sweep_loads net.now matrix.now.demand (map links_in paths.now) }
    ensures bound { OnOk result (state.new.best_bound ≡ max state.old.best_bound (spread_by net.now lengths.now state.new.loads.items).mean) }
    ensures lengths { state.new.lengths ≡ state.old.lengths }
{
    let spread = spread_under(net, matrix, paths, lengths, &mut state.loads);
    if spread.mean > state.best_bound {
        state.best_lengths = Vec::from_slice(alloc, lengths)?;
        state.best_bound = spread.mean;
    }
    Ok(())
}

/// Ends a sweep whose loads `state` has: keeps its lengths where they bound better than those before, and moves the lengths. Says how
/// much the sweep counts.
///
/// `Memory` comes where memory is wanting.
pub fn end_sweep(
    alloc: Global,
    net: &Network,
    state: &mut DualState,
    step_divisor: u64,
) -> Result<u64, Memory>
    requires network { IsTrue (is_well_formed net.now) }
    requires state { IsDualState net.now state.old }
    requires step_divisor { (1 ≤ step_divisor) × (step_divisor ≤ 128) }
    ensures weight { IfOk result IsWeight }
    ensures state { IsDualState net.now state.new }
    ensures better { KeepsBetter state.old.lengths.items state.old state.new }
    ensures loads { state.new.loads.items ≡ state.old.loads.items }
    ensures bound { OnOk result (state.new.best_bound ≡ max state.old.best_bound (spread_by net.now state.old.lengths.items state.new.loads.items).mean) }
    ensures counted { IfOk result (λ w. w ≡ weight_by (spread_by net.now state.old.lengths.items state.new.loads.items)) }
{
    let spread = spread_of(net, &state.lengths, &state.loads);
    if spread.mean > state.best_bound {
        state.best_lengths = Vec::from_slice(alloc, &state.lengths)?;
        state.best_bound = spread.mean;
    }
    step_weights(net, &mut state.lengths, &state.loads, step_divisor);
    Ok(weight_of(spread))
}

/// Takes a sweep, in which the pairs take these paths: keeps its lengths where they bound better than those before, and moves the
/// lengths. Says how much the sweep counts.
///
/// `Memory` comes where memory is wanting.
pub fn take_sweep(
    alloc: Global,
    net: &Network,
    matrix: &Matrix,
    paths: &[Path],
    state: &mut DualState,
    step_divisor: u64,
) -> Result<u64, Memory>
    requires network { IsTrue (is_well_formed net.now) }
    requires demands { AreDemands (length paths.now) matrix.now.demand }
    requires paths { AreOnLinks net.now (map links_in paths.now) }
    requires state { IsDualState net.now state.old }
    requires step_divisor { (1 ≤ step_divisor) × (step_divisor ≤ 128) }
    ensures weight { IfOk result IsWeight }
    ensures state { IsDualState net.now state.new }
    ensures better { KeepsBetter state.old.lengths.items state.old state.new }
    ensures loads { state.new.loads.items ≡ sweep_loads net.now matrix.now.demand (map links_in paths.now) }
    ensures bound { OnOk result (state.new.best_bound ≡ max state.old.best_bound (spread_by net.now state.old.lengths.items state.new.loads.items).mean) }
    ensures counted { IfOk result (λ w. w ≡ weight_by (spread_by net.now state.old.lengths.items state.new.loads.items)) }
{
    write_loads(net, matrix, paths, &mut state.loads);
    end_sweep(alloc, net, state, step_divisor)
}
