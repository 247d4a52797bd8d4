//! What a routing puts on all links, in one pass over its paths.
ghost use Rattle.std.specs.Prelude.{◌≡◌, ◌+◌, ◌*◌, ◌^◌, ◌<◌, ◌≤◌, ℕ, All, IfOk, IsTrue, false, length, slice_index, slice_index_or};
ghost use Rattle.te_model.specs.Network.{capacity_of, is_well_formed, link_count};
ghost use Rattle.te_model.specs.Path.{has_number, weight_on, amount_on};
ghost use Rattle.te_model.specs.declared.units.TheConstants.{RATIO_UNIT, SHARE_UNIT};
ghost use Rattle.routing.specs.Routes.{AreDemands, AreLoads};
ghost use Rattle.routing.specs.Split.{are_splits, total_weight};
ghost use Rattle.te_model.specs.Division.{quotient_up};
ghost use Rattle.te_model.specs.Counting.{greatest_below};

use crate::routes::utilisation;
use std::alloc::Global;
use te_model::{Matrix, Memory, Network, PairRoutes, PathShare};

/// Adds the amount to the load of each link of the path, once however often the path holds it, and
/// marks these links.
fn add_along(loads: &mut [u128], marks: &mut [bool], path: &[u32], amount: u128)
    requires count { length marks.old ≡ length loads.old }
    requires unmarked { All (λ m. m ≡ false) marks.old }
    requires room { All (λ x. x + amount < 2 ^ 128) loads.old }
    ensures loads { (e : ℕ) → e < length loads.old → slice_index loads.new e ≡ slice_index loads.old e + amount_on path.now amount e }
    ensures marks { (e : ℕ) → e < length marks.old → slice_index_or marks.new e false ≡ has_number path.now e }
{
    for link in path {
        let h = *link as usize;
        if h < loads.len() && !marks[h] {
            marks[h] = true;
            loads[h] += amount;
        }
    }
}

/// Takes the marks of the links of the path away, which are all that there are.
fn unmark(marks: &mut [bool], path: &[u32])
    requires { (e : ℕ) → e < length marks.old → slice_index_or marks.old e false ≡ has_number path.now e }
    ensures { All (λ m. m ≡ false) marks.new }
{
    for link in path {
        let h = *link as usize;
        if h < marks.len() {
            marks[h] = false;
        }
    }
}

/// Adds what the demand of a pair with these paths puts on the links.
fn add_demand(loads: &mut [u128], marks: &mut [bool], paths: &[PathShare], demand: u64)
    requires count { length marks.old ≡ length loads.old }
    requires unmarked { All (λ m. m ≡ false) marks.old }
    requires whole { total_weight paths.now ≤ SHARE_UNIT }
    requires demand { demand ≤ 2 ^ 32 }
    requires room { All (λ x. x < 2 ^ 84) loads.old }
    ensures loads { (e : ℕ) → e < length loads.old → slice_index loads.new e ≡ slice_index loads.old e + demand * weight_on paths.now e }
    ensures marks { All (λ m. m ≡ false) marks.new }
{
    for path in paths {
        let links = path.links.as_slice();
        let amount = u128::from(demand) * u128::from(path.weight);
        add_along(loads, marks, links, amount);
        unmark(marks, links);
    }
}

/// The greatest utilisation under the loads, which are in millionths: one for each link.
pub fn greatest_under(net: &Network, loads: &[u128]) -> u128
    requires network { IsTrue (is_well_formed net.now) }
    requires count { length loads.now ≡ link_count net.now }
    requires small { All (λ x. x < 2 ^ 84) loads.now }
    ensures { result ≡ greatest_below (link_count net.now) (λ e. quotient_up (slice_index loads.now e * RATIO_UNIT) (SHARE_UNIT * capacity_of net.now e)) }
{
    let links = net.links.as_slice();
    let mut most = 0;
    for h in 0..links.len() {
        most = most.max(utilisation(loads[h], links[h].capacity));
    }
    most
}

/// What the demands put on each link, in millionths.
pub fn loads_of(
    alloc: Global,
    net: &Network,
    routes: &[PairRoutes],
    matrix: &Matrix,
) -> Result<Vec<u128>, Memory>
    requires pairs { length routes.now < 2 ^ 32 }
    requires splits { IsTrue (are_splits routes.now) }
    requires demands { AreDemands (length routes.now) matrix.now.demand }
    ensures loads { IfOk result (λ loads. AreLoads net.now matrix.now.demand routes.now loads.items) }
    ensures fit { IfOk result (λ loads. All (λ x. x < 2 ^ 84) loads.items) }
{
    let demands = matrix.demand.as_slice();
    let count = net.links.as_slice().len();
    let mut loads = vec![in alloc; 0; count]?;
    let mut marks = vec![in alloc; false; count]?;
    for p in 0..routes.len() {
        add_demand(
            &mut loads,
            &mut marks,
            routes[p].paths.as_slice(),
            demands[p],
        );
    }
    Ok(loads)
}
