//! The rounds of a step.
ghost use Rattle.std.specs.Prelude.{◌≡◌, ℕ, ◌+◌, ◌*◌, ◌^◌, ◌<◌, ◌≤◌, All, length, map, slice_index, EachIndex, IfOk};
ghost use Rattle.te_model.specs.declared.limits.TheConstants.{FORMAT_2};
ghost use Rattle.te_model.specs.Network.{link_count};
ghost use Rattle.flow_sim.specs.Traffic.{step_setting, longest, flow_paths, paths_of, CanSplit};
ghost use Rattle.flow_sim.specs.State.{HasBegun, IsState, IsStart};

use crate::queues::queues_of;
use crate::serve::serve_round;
use crate::state::State;
use crate::tables::{starts, zeros};
use std::alloc::Global;
use te_model::{Items, Matrix, Memory, Network, PairRoutes, PathShare};

// The capacity of each link.
fn capacities(alloc: Global, net: &Network) -> Result<Vec<u64>, Memory>
    ensures { IfOk result (λ v. v.items ≡ map (λ l. l.capacity) net.now.links) }
{
    let mut list = Vec::new(alloc);
    for link in net.links.as_slice() {
        list.push(link.capacity)?;
    }
    Ok(list)
}

// How many links the longest of the paths has.
fn longest(paths: &[PathShare]) -> usize
    ensures { result ≡ longest paths.now }
{
    let mut most = 0;
    for path in paths {
        most = most.max(path.links.as_slice().len());
    }
    most
}

// How many links the longest path of all pairs has.
fn longest_of_all(rates: &Items<PairRoutes>) -> usize
    ensures { result ≡ longest (flow_paths rates.now) }
{
    let mut most = 0;
    let pairs = rates.as_slice();
    for p in 0..pairs.len() {
        most = most.max(longest(pairs[p].paths.as_slice()));
    }
    most
}

// How a step begins in which the flows have these units, and the links can serve so much.
fn begin_with(alloc: Global, units: Vec<u64>, left: Vec<u64>) -> Result<State, Memory>
    ensures { IfOk result (HasBegun units.items left.items) }
{
    let lost_full = zeros(alloc, units.len())?;
    let lost_failed = zeros(alloc, units.len())?;
    Ok(State {
        units,
        lost_full,
        lost_failed,
        left,
    })
}

// How the step stands before its first round.
fn begin(
    alloc: Global,
    net: &Network,
    rates: &Items<PairRoutes>,
    matrix: &Matrix,
) -> Result<State, Memory>
    requires lengths { length matrix.now.demand ≡ length rates.now }
    requires demands { EachIndex matrix.now.demand (λ p. slice_index matrix.now.demand p ≤ 2 ^ 32) }
    requires paths { (p : ℕ) → p < length rates.now → CanSplit (paths_of rates.now p) }
    ensures { IfOk result (IsStart net.now rates.now matrix.now.demand) }
{
    let units = starts(alloc, rates, matrix)?;
    let left = capacities(alloc, net)?;
    begin_with(alloc, units, left)
}

// All rounds of the step: how it stands at the end.
pub fn run(
    alloc: Global,
    net: &Network,
    failed: &[bool],
    rates: &Items<PairRoutes>,
    matrix: &Matrix,
) -> Result<State, Memory>
    requires marks { length failed.now ≡ link_count net.now }
    requires lengths { length matrix.now.demand ≡ length rates.now }
    requires pairs { length rates.now ≤ FORMAT_2.nodes * FORMAT_2.nodes }
    requires demands { EachIndex matrix.now.demand (λ p. slice_index matrix.now.demand p ≤ 2 ^ 32) }
    requires paths { (p : ℕ) → p < length rates.now → CanSplit (paths_of rates.now p) }
    requires links { (p : ℕ) → p < length rates.now → All (λ s. All (λ e. e < link_count net.now) s.links) (paths_of rates.now p) }
    ensures { IfOk result (IsState (step_setting net.now failed.now rates.now matrix.now.demand) (longest (flow_paths rates.now))) }
{
    let queues = queues_of(alloc, rates, longest_of_all(rates), failed.len())?;
    let mut state = begin(alloc, net, rates, matrix)?;
    for number in 0..queues.len() {
        serve_round(alloc, failed, &queues[number], &mut state)?;
    }
    Ok(state)
}
