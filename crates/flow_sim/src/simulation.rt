//! One step: what becomes of each pair's demand on links that may be full or have failed.
ghost use Rattle.std.specs.Prelude.{◌≡◌, ℕ, ◌+◌, ◌*◌, ◌-◌, ◌^◌, ◌<◌, ◌≤◌, All, EachIndex, IfOk, IsTrue, length, map, sum, slice_index, if◌then◌else◌, ◌==◌};
ghost use Rattle.std.specs.List.{range_with_len};
ghost use Rattle.te_model.specs.declared.limits.TheConstants.{FORMAT_2};
ghost use Rattle.te_model.specs.Network.{is_well_formed, link_count, capacity_of};
ghost use Rattle.local_recovery.specs.Rates.{IsRates};
ghost use Rattle.flow_sim.specs.Traffic.{step_setting, longest, flow_paths, flow_pairs, paths_of};
ghost use Rattle.flow_sim.specs.State.{IsState};
ghost use Rattle.flow_sim.specs.Tables.{total_at};
ghost use Rattle.flow_sim.specs.Result.{IsConserved, IsSummed, pair_result_of, pair_results, all_carried};

use crate::result::{PairResult, StepResult, step_result};
use crate::rounds::run;
use crate::state::State;
use crate::tables::{pairs, totals_of};
use local_recovery::Recovered;
use std::alloc::Global;
use te_model::{Items, Matrix, Memory, Network, PairRoutes};

// What each link served, of its capacity and what it has left.
fn carried_units(alloc: Global, net: &Network, left: &[u64]) -> Result<Vec<u64>, Memory>
    requires lengths { length left.now ≡ link_count net.now }
    requires within { EachIndex left.now (λ e. slice_index left.now e ≤ capacity_of net.now e) }
    ensures { IfOk result (λ v. v.items ≡ map (λ e. capacity_of net.now e - slice_index left.now e) (range_with_len 0 (link_count net.now))) }
{
    let mut list = Vec::new(alloc);
    let links = net.links.as_slice();
    for e in 0..links.len() {
        list.push(links[e].capacity - left[e])?;
    }
    Ok(list)
}

// The demand, where there is no path for it.
fn lost_no_path(routes: &PairRoutes, demand: u64) -> u64
    ensures { result ≡ (if length routes.now.paths == 0 then demand else 0) }
{
    if routes.paths.as_slice().is_empty() {
        demand
    } else {
        0
    }
}

// The result of each pair, from what its flows have at the end and have lost.
fn per_pair(
    alloc: Global,
    rates: &Items<PairRoutes>,
    matrix: &Matrix,
    delivered: &[u64],
    lost_full: &[u64],
    lost_failed: &[u64],
) -> Result<Vec<PairResult>, Memory>
    requires lengths { (length matrix.now.demand ≡ length rates.now) × (length delivered.now ≡ length rates.now)
        × (length lost_full.now ≡ length rates.now) × (length lost_failed.now ≡ length rates.now) }
    ensures { IfOk result (λ v. v.items
        ≡ map (pair_result_of rates.now matrix.now.demand (slice_index delivered.now) (slice_index lost_full.now) (slice_index lost_failed.now)) (range_with_len 0 (length rates.now))) }
{
    let mut list = Vec::new(alloc);
    let routes = rates.as_slice();
    let demand = matrix.demand.as_slice();
    for p in 0..routes.len() {
        list.push(PairResult {
            offered: demand[p],
            delivered: delivered[p],
            lost_full: lost_full[p],
            lost_failed: lost_failed[p],
            lost_no_path: lost_no_path(&routes[p], demand[p]),
        })?;
    }
    Ok(list)
}

// The result of each pair, from how the step stands at its end.
fn results(
    alloc: Global,
    rates: &Items<PairRoutes>,
    matrix: &Matrix,
    end: &State,
) -> Result<Vec<PairResult>, Memory>
    requires demands { length matrix.now.demand ≡ length rates.now }
    requires pairs { length rates.now ≤ FORMAT_2.nodes * FORMAT_2.nodes }
    requires flows { (length end.now.units.items ≡ length (flow_pairs rates.now))
        × (length end.now.lost_full.items ≡ length (flow_pairs rates.now)) × (length end.now.lost_failed.items ≡ length (flow_pairs rates.now)) }
    requires fits { (sum end.now.units.items < 2 ^ 64) × (sum end.now.lost_full.items < 2 ^ 64) × (sum end.now.lost_failed.items < 2 ^ 64) }
    ensures { IfOk result (λ v. v.items ≡ map (pair_result_of rates.now matrix.now.demand
        (total_at (flow_pairs rates.now) end.now.units.items) (total_at (flow_pairs rates.now) end.now.lost_full.items)
        (total_at (flow_pairs rates.now) end.now.lost_failed.items)) (range_with_len 0 (length rates.now))) }
{
    let count = rates.as_slice().len();
    let keys = pairs(alloc, rates)?;
    let delivered = totals_of(alloc, keys.as_slice(), end.units.as_slice(), count)?;
    let lost_full = totals_of(alloc, keys.as_slice(), end.lost_full.as_slice(), count)?;
    let lost_failed = totals_of(alloc, keys.as_slice(), end.lost_failed.as_slice(), count)?;
    let list = per_pair(
        alloc,
        rates,
        matrix,
        delivered.as_slice(),
        lost_full.as_slice(),
        lost_failed.as_slice(),
    )?;
    Ok(list)
}

/// What becomes of the demand of each pair in one step, and what each link carries.
///
/// Each demand is split over its pair's paths by their weights (largest remainders). In round r each part asks the r-th link of its
/// path. A link that has failed loses all that asks it. Any other serves fair shares of what it has left in this step, in order of
/// pair and path, and the rest is lost. What has passed its last link is delivered. `failed` has one mark for each link, `rates`
/// the paths of each pair, and `matrix` one demand for each pair of the rates. `Memory` comes where memory is wanting.
pub fn step(
    alloc: Global,
    net: &Network,
    failed: &[bool],
    rates: &Recovered,
    matrix: &Matrix,
) -> Result<StepResult, Memory>
    requires network { IsTrue (is_well_formed net.now) }
    requires marks { length failed.now ≡ link_count net.now }
    requires rates { IsRates net.now rates.now.routes }
    requires demands { length matrix.now.demand ≡ length rates.now.routes }
    requires small { EachIndex matrix.now.demand (λ p. slice_index matrix.now.demand p ≤ 2 ^ 32) }

    ensures pairs { IfOk result (λ v. v.per_pair ≡ pair_results net.now failed.now rates.now.routes matrix.now.demand) }
    ensures carried { IfOk result (λ v. v.carried ≡ all_carried net.now failed.now rates.now.routes matrix.now.demand) }
    ensures totals { IfOk result (λ v. IsSummed v.carried v.per_pair v) }

    ensures offered { IfOk result (λ v. map (λ p. p.offered) v.per_pair ≡ matrix.now.demand) }
    ensures pairs_conserved { IfOk result (λ v. All IsConserved v.per_pair) }
    ensures conserved { IfOk result (λ v. v.offered ≡ v.delivered + v.lost_full + v.lost_failed + v.lost_no_path) }
{
    let end = run(alloc, net, failed, &rates.routes, matrix)?;
    let per_pair = results(alloc, &rates.routes, matrix, &end)?;
    let carried = carried_units(alloc, net, end.left.as_slice())?;
    let result = step_result(Items::new(carried), Items::new(per_pair));
    Ok(result)
}
