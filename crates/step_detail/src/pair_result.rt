//! The lines of pairs: what became of the demand of each in a step, and what its paths cost.
ghost use Rattle.std.specs.Prelude.{◌≡◌, ◌++◌, ◌*◌, ◌<◌, ◌≤◌, All, IsTrue, OnOk, length};
ghost use Rattle.te_model.specs.declared.limits.TheConstants.{FORMAT_2};
ghost use Rattle.te_model.specs.declared.units.TheConstants.{SHARE_UNIT};
ghost use Rattle.te_model.specs.Network.{is_well_formed, node_count};
ghost use Rattle.te_model.specs.Pairs.{IsNodePair};
ghost use Rattle.te_model.specs.Path.{is_path};
ghost use Rattle.routing.specs.Split.{total_weight};
ghost use Rattle.shortest_path.specs.Costs.{HasCosts};
ghost use Rattle.local_recovery.specs.Rates.{IsRates, has_rates};
ghost use Rattle.step_detail.specs.Pairs.{in_millionths, mean_cost, weighted_cost, pair_result_line, pair_result_lines};

use crate::names::name_of;
use experiment::fields::{print_field, print_number, print_number_or_dash};
use flow_sim::PairResult;
use series_simulation::SimulatedStep;
use shortest_path::{costs, length_along};
use std::alloc::Global;
use te_model::{Memory, Network, PairRoutes, PathShare, SHARE_UNIT};

/// The sum of weight times cost over the paths.
fn weighted_cost(costs: &[u64], paths: &[PathShare]) -> u128
    requires links { All (λ s. All (λ h. h < length costs.now) s.links) paths.now }
    requires short { All (λ s. length s.links ≤ FORMAT_2.nodes) paths.now }
    requires small { All (λ c. c ≤ 65535) costs.now }
    requires whole { total_weight paths.now ≤ SHARE_UNIT }
    ensures { result ≡ weighted_cost costs.now paths.now }
{
    let mut sum = 0;
    for path in paths {
        let cost = u128::from(path.weight) * length_along(costs, path.links.as_slice());
        sum += cost;
    }
    sum
}

/// The same, if there are paths.
fn mean_cost(costs: &[u64], paths: &[PathShare]) -> Option<u128>
    requires links { All (λ s. All (λ h. h < length costs.now) s.links) paths.now }
    requires short { All (λ s. length s.links ≤ FORMAT_2.nodes) paths.now }
    requires small { All (λ c. c ≤ 65535) costs.now }
    requires whole { total_weight paths.now ≤ SHARE_UNIT }
    ensures { result ≡ mean_cost costs.now paths.now }
{
    if paths.is_empty() {
        None
    } else {
        Some(weighted_cost(costs, paths))
    }
}

/// The cost in millionths.
fn millionths(cost: u64) -> u128
    ensures { result ≡ cost * SHARE_UNIT }
{
    u128::from(cost) * u128::from(SHARE_UNIT)
}

/// The cost in millionths, if there is one.
fn in_millionths(cost: Option<u64>) -> Option<u128>
    ensures { result ≡ in_millionths cost }
{
    match cost {
        Some(cost) => Some(millionths(cost)),
        None => None,
    }
}

/// Writes the line of a pair with these paths, this result and this least cost.
fn print_pair(
    text: &mut Vec<u8>,
    word: &str,
    net: &Network,
    costs: &[u64],
    routes: &PairRoutes,
    outcome: &PairResult,
    least: Option<u64>,
) -> Result<(), Memory>
    requires network { IsTrue (is_well_formed net.now) }
    requires costs { HasCosts net.now costs.now }
    requires pair { IsNodePair (node_count net.now) routes.now.pair }
    requires paths { All (λ s. IsTrue (is_path net.now routes.now.pair.src routes.now.pair.dst s.links)) routes.now.paths }
    requires rates { IsTrue (has_rates routes.now) }
    ensures { OnOk result (text.new.items ≡ text.old.items ++ pair_result_line net.now word.now routes.now outcome.now least) }
{
    let paths = routes.paths.as_slice();
    text.extend_from_slice(word.as_bytes())?;
    print_field(text, name_of(net, routes.pair.src))?;
    print_field(text, name_of(net, routes.pair.dst))?;
    print_number(text, u128::from(outcome.offered))?;
    print_number(text, u128::from(outcome.delivered))?;
    print_number(text, u128::from(outcome.lost_full))?;
    print_number(text, u128::from(outcome.lost_failed))?;
    print_number(text, u128::from(outcome.lost_no_path))?;
    print_number(text, paths.len() as u128)?;
    print_number_or_dash(text, mean_cost(costs, paths))?;
    print_number_or_dash(text, in_millionths(least))?;
    text.push(b'\n')?;
    Ok(())
}

/// Writes a line for each declared pair, in order. `least` has the least cost of each.
pub fn print_pairs(
    alloc: Global,
    text: &mut Vec<u8>,
    word: &str,
    net: &Network,
    least: &[Option<u64>],
    step: &SimulatedStep,
) -> Result<(), Memory>
    requires network { IsTrue (is_well_formed net.now) }
    requires rates { IsRates net.now step.now.rates.routes }
    requires results { length step.now.row.result.per_pair ≡ length step.now.rates.routes }
    requires least { length least.now ≡ length step.now.rates.routes }
    ensures { OnOk result (text.new.items ≡ text.old.items ++ pair_result_lines net.now least.now word.now step.now) }
{
    let costs = costs(alloc, net)?;
    let lengths = costs.as_slice();
    let routes = step.rates.routes.as_slice();
    let results = step.row.result.per_pair.as_slice();
    for p in 0..routes.len() {
        print_pair(text, word, net, lengths, &routes[p], &results[p], least[p])?;
    }
    Ok(())
}
