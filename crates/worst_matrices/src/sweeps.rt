//! Sweeps of weights of a link: in each of them the worst matrix for the weights takes least ways, and the weights of the links that
//! it uses most grow.
ghost use Rattle.std.specs.Prelude.{◌≡◌, ◌^◌, ◌≤◌, IfOk, OnOk, length};
ghost use Rattle.te_model.specs.Network.{node_count};
ghost use Rattle.centred_steps.specs.Loads.{AreLoadsWithin};
ghost use Rattle.centred_steps.specs.Weights.{AreWeightsUpTo};
ghost use Rattle.shortest_path.specs.declared.rows.Direction.TheVariants.{Forward};
ghost use Rattle.shortest_path.specs.Rows.{IsSearchGraph};
ghost use Rattle.worst_matrices.specs.Usage.{IsLinkUsage, IsMetricOf, IsWeightSearch};

use crate::means::{Sums, add, no_sums};
use crate::response::{Response, respond};
use crate::usage::LinkUsage;
use best_blocks::{Metric, metric_with};
use centred_steps::{FIRST_WEIGHT, has_load, spread_of, step_weights};
use shortest_path::{Direction, Searches};
use std::alloc::Global;
use te_model::{Memory, Network};

/// How many sweeps a stage has besides one for every second link.
const SWEEPS: usize = 60;

/// The most sweeps of a stage.
const MAX_SWEEPS: usize = 256;

/// The first of so many parts of a stage is left out of the mean.
const PARTS_OF_STAGE: usize = 4;

/// Where sweeps stand.
#[derive(Drop)]
pub struct Search {
    /// The metric of the weights of the next sweep.
    pub metric: Metric,
    /// Searches along links in the network.
    pub searches: Searches,
}

/// The start of a search, where each weight is 2^20.
pub fn start(alloc: Global, usage: &LinkUsage, marks: &[bool]) -> Result<Search, Memory>
    requires usage { IsLinkUsage usage.now }
    requires marks { length marks.now ≡ node_count usage.now.net.now }
    ensures { IfOk result (IsWeightSearch usage.now) }
{
    let weights = vec![in alloc; FIRST_WEIGHT; usage.net.links.as_slice().len()]?;
    let mut searches = Searches::with_orders(alloc, usage.net, Direction::Forward)?;
    let metric = metric_with(
        alloc,
        usage.net,
        usage.routing,
        marks,
        &mut searches,
        weights,
    )?;
    Ok(Search { metric, searches })
}

/// The metric of the weights after a step by the loads.
fn metric_after_step(
    alloc: Global,
    usage: &LinkUsage,
    marks: &[bool],
    metric: &Metric,
    searches: &mut Searches,
    loads: &[u128],
    divisor: u64,
) -> Result<Metric, Memory>
    requires usage { IsLinkUsage usage.now }
    requires marks { length marks.now ≡ node_count usage.now.net.now }
    requires along { IsSearchGraph usage.now.net.now Forward searches.old }
    requires metric { IsMetricOf usage.now metric.now }
    requires weights { AreWeightsUpTo (2 ^ 27) metric.now.weights }
    requires loads { AreLoadsWithin usage.now.net.now loads.now }
    requires divisor { (1 ≤ divisor) × (divisor ≤ 128) }
    ensures metric { IfOk result (IsMetricOf usage.now) }
    ensures weights { IfOk result (λ m. AreWeightsUpTo (2 ^ 27) m.weights) }
    ensures same { searches.new ≡ searches.old }
{
    let mut weights = Vec::from_slice(alloc, metric.weights.as_slice())?;
    step_weights(usage.net, &mut weights, loads, divisor);
    metric_with(alloc, usage.net, usage.routing, marks, searches, weights)
}

/// Moves the weights of the search by a step after a sweep, whose loads these are.
fn advance(
    alloc: Global,
    usage: &LinkUsage,
    marks: &[bool],
    search: &mut Search,
    loads: &[u128],
    divisor: u64,
) -> Result<(), Memory>
    requires usage { IsLinkUsage usage.now }
    requires marks { length marks.now ≡ node_count usage.now.net.now }
    requires search { IsWeightSearch usage.now search.old }
    requires loads { AreLoadsWithin usage.now.net.now loads.now }
    requires divisor { (1 ≤ divisor) × (divisor ≤ 128) }
    ensures { OnOk result (IsWeightSearch usage.now search.new) }
{
    let old = &search.metric;
    let searches = &mut search.searches;
    let metric = metric_after_step(alloc, usage, marks, old, searches, loads, divisor)?;
    search.metric = metric;
    Ok(())
}

/// Adds the response to the weights of the metric to the sums, where it counts: the less, the further the greatest usage of a link
/// lies above the middle, as the step that follows moves the weights.
fn count_response(
    usage: &LinkUsage,
    metric: &Metric,
    response: &Response,
    counts: bool,
    sums: &mut Sums,
)
    requires usage { IsLinkUsage usage.now }
    requires metric { IsMetricOf usage.now metric.now }
    requires weights { AreWeightsUpTo (2 ^ 27) metric.now.weights }
    requires loads { AreLoadsWithin usage.now.net.now response.now.loads.items }
    requires demand { length response.now.demand.items ≡ length sums.old.demand.items }
    ensures { length sums.new.demand.items ≡ length sums.old.demand.items }
{
    if counts {
        let spread = spread_of(usage.net, metric.weights.as_slice(), &response.loads);
        add(sums, &response.demand, spread.deviation);
    }
}

/// How many sweeps a stage has.
fn sweeps_of(net: &Network) -> usize {
    (SWEEPS + net.links.as_slice().len() / 2).min(MAX_SWEEPS)
}

/// Goes on with the search by a stage of sweeps, until no link has a load, and sums the worst matrices that it meets.
pub fn make_stage(
    alloc: Global,
    usage: &LinkUsage,
    marks: &[bool],
    search: &mut Search,
    divisor: u64,
) -> Result<Sums, Memory>
    requires usage { IsLinkUsage usage.now }
    requires marks { length marks.now ≡ node_count usage.now.net.now }
    requires search { IsWeightSearch usage.now search.old }
    requires divisor { (1 ≤ divisor) × (divisor ≤ 128) }
    ensures search { OnOk result (IsWeightSearch usage.now search.new) }
    ensures count { IfOk result (λ s. length s.demand.items ≡ length usage.now.shares.now) }
{
    let sweeps = sweeps_of(usage.net);
    let mut sums = no_sums(alloc, usage.shares.len())?;
    for i in 0..sweeps {
        let response = respond(alloc, usage, &search.metric, 2 * u128::from(divisor))?;
        if !has_load(&response.loads) {
            return Ok(sums);
        }
        let counts = i >= sweeps / PARTS_OF_STAGE;
        count_response(usage, &search.metric, &response, counts, &mut sums);
        advance(alloc, usage, marks, search, &response.loads, divisor)?;
    }
    Ok(sums)
}
