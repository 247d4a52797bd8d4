//! Making rates: every pair has the same fraction of what it asks for, the greatest that fits, and then each pair in order
//! as much more as its links allow.
ghost use Rattle.std.specs.Prelude.{◌≡◌, ℕ, ◌-◌, ◌*◌, ◌+◌, ◌/◌, ◌^◌, ◌<◌, ◌≤◌, [], min, length, slice_index, slice_index_or, replicate, IfOk, IsTrue};
ghost use Rattle.te_model.specs.declared.limits.TheConstants.{FORMAT_2};
ghost use Rattle.te_model.specs.Network.{capacity_of, is_well_formed, link_count};
ghost use Rattle.te_model.specs.Path.{routes_at};
ghost use Rattle.te_model.specs.PathRouting.{IsPathRouting};
ghost use Rattle.routing.specs.Routes.{AreDemands, HasFewPaths};
ghost use Rattle.fault_rates.specs.Making.{AreFull, AreValues, EvenFits, IsProtection, IsRoom, cap_by, even_on, paths_left_of, room_on_link};
ghost use Rattle.fault_rates.specs.Tables.{CanAdd, paths_on};

use crate::guard::paths_left;
use crate::parts::{capacity_of, link_count, paths_of};
use crate::plan::RatePlan;
use crate::sums::{MOST_LINKS, paths_on_links};
use routing::Routing;
use std::alloc::Global;
use te_model::{Items, Matrix, Memory, Network, PairRoutes, ceil_div};

/// In how many parts what a pair asks for is divided.
const PARTS: u64 = 1_000_000;

// What each of so many paths has to carry of the demand.
fn cap_by(demand: u64, left: u64) -> u64
    ensures { result ≡ cap_by demand left }
{
    if left == 0 {
        0
    } else {
        ceil_div(u128::from(demand), u128::from(left)) as u64
    }
}

// How many paths of each pair are left at least where so many links fail.
fn all_paths_left(
    alloc: Global,
    net: &Network,
    routes: &[PairRoutes],
    failures: u32,
) -> Result<Vec<u64>, Memory>
    requires { CanAdd net.now routes.now }
    ensures { IfOk result (λ left. AreValues (length routes.now) (paths_left_of net.now routes.now failures) left.items) }
{
    let links = link_count(net);
    let mut left = Vec::with_capacity(alloc, routes.len())?;
    for p in 0..routes.len() {
        left.push(paths_left(paths_of(routes, p), links, failures))?;
    }
    Ok(left)
}

// What each path of each pair may have at most.
fn all_caps(alloc: Global, demands: &[u64], left: &[u64]) -> Result<Vec<u64>, Memory>
    requires { length demands.now ≡ length left.now }
    ensures { IfOk result (λ caps. AreValues (length left.now) (λ p. cap_by (slice_index demands.now p) (slice_index left.now p)) caps.items) }
{
    let mut caps = Vec::with_capacity(alloc, left.len())?;
    for p in 0..left.len() {
        caps.push(cap_by(demands[p], left[p]))?;
    }
    Ok(caps)
}

// The same fraction of each of the caps, in parts.
fn fraction_of(alloc: Global, caps: &[u64], parts: u64) -> Result<Vec<u64>, Memory>
    requires parts { parts ≤ 1000000 }
    requires small { (p : ℕ) → p < length caps.now → slice_index caps.now p ≤ 2 ^ 32 }
    ensures { IfOk result (λ even. AreValues (length caps.now) (λ p. slice_index caps.now p * parts / 1000000) even.items) }
{
    let mut even = Vec::with_capacity(alloc, caps.len())?;
    for p in 0..caps.len() {
        even.push(caps[p] * parts / PARTS)?;
    }
    Ok(even)
}

// How many of the pair's paths hold the link, for each link.
fn paths_of_pair_on_links(net: &Network, routes: &[PairRoutes], pair: usize) -> [u64; MOST_LINKS]
    requires can { CanAdd net.now routes.now }
    requires pair { pair < length routes.now }
    ensures count { length result ≡ FORMAT_2.links }
    ensures each { (e : ℕ) → slice_index result e ≡ paths_on (routes_at routes.now pair).paths e }
    ensures small { (e : ℕ) → slice_index result e ≤ 32 }
{
    paths_on_links(paths_of(routes, pair))
}

// Adds the amount on each link for each path that holds it.
fn add_by_count(sums: &mut [u64], counts: &[u64], amount: u64)
    requires count { length sums.old ≤ length counts.now }
    requires counts { (e : ℕ) → slice_index counts.now e ≤ 32 }
    requires amount { amount ≤ 2 ^ 32 }
    requires room { (e : ℕ) → e < length sums.old → slice_index sums.old e ≤ 2 ^ 63 }
    ensures { (e : ℕ) → e < length sums.old →
        slice_index sums.new e ≡ slice_index sums.old e + amount * slice_index counts.now e }
{
    for e in 0..sums.len() {
        sums[e] += amount * counts[e];
    }
}

// What these allocations put on the links, one for all paths of each pair.
fn sums_of(
    alloc: Global,
    net: &Network,
    routes: &[PairRoutes],
    even: &[u64],
) -> Result<Vec<u64>, Memory>
    requires can { CanAdd net.now routes.now }
    requires count { length even.now ≡ length routes.now }
    requires small { (p : ℕ) → p < length routes.now → slice_index even.now p ≤ 2 ^ 32 }
    ensures { IfOk result (λ sums. AreValues (link_count net.now) (even_on routes.now (slice_index even.now)) sums.items) }
{
    let mut sums = vec![in alloc; 0u64; link_count(net)]?;
    for p in 0..routes.len() {
        let counts = paths_of_pair_on_links(net, routes, p);
        add_by_count(&mut sums, &counts, even[p]);
    }
    Ok(sums)
}

// Whether no link has more than its capacity.
fn fits(net: &Network, sums: &[u64]) -> bool
    requires { length sums.now ≡ link_count net.now }
    ensures { IsTrue result → (e : ℕ) → e < link_count net.now → slice_index sums.now e ≤ capacity_of net.now e }
{
    for e in 0..sums.len() {
        if sums[e] > capacity_of(net, e) {
            return false;
        }
    }
    true
}

// Whether this fraction of the caps fits the links.
fn fraction_fits(
    alloc: Global,
    net: &Network,
    routes: &[PairRoutes],
    caps: &[u64],
    parts: u64,
) -> Result<bool, Memory>
    requires can { CanAdd net.now routes.now }
    requires count { length caps.now ≡ length routes.now }
    requires small { (p : ℕ) → p < length routes.now → slice_index caps.now p ≤ 2 ^ 32 }
    requires parts { parts ≤ 1000000 }
    ensures { IfOk result (λ fits. IsTrue fits → EvenFits net.now routes.now (λ p. slice_index caps.now p * parts / 1000000)) }
{
    let even = fraction_of(alloc, caps, parts)?;
    let sums = sums_of(alloc, net, routes, &even)?;
    Ok(fits(net, &sums))
}

// The greatest fraction of the caps that fits the links, in parts.
fn fair_parts(
    alloc: Global,
    net: &Network,
    routes: &[PairRoutes],
    caps: &[u64],
) -> Result<u64, Memory>
    requires can { CanAdd net.now routes.now }
    requires count { length caps.now ≡ length routes.now }
    requires small { (p : ℕ) → p < length routes.now → slice_index caps.now p ≤ 2 ^ 32 }
    ensures few { IfOk result (λ parts. parts ≤ 1000000) }
    ensures fits { IfOk result (λ parts. EvenFits net.now routes.now (λ p. slice_index caps.now p * parts / 1000000)) }
{
    let mut low = 0;
    let mut high = PARTS + 1;
    while high - low > 1 {
        let middle = low + (high - low) / 2;
        if fraction_fits(alloc, net, routes, caps, middle)? {
            low = middle;
        } else {
            high = middle;
        }
    }
    Ok(low)
}

// How much more, up to the limit, each of the paths may have that hold a link of this capacity, which carries the sum.
fn room_on_link(capacity: u64, sum: u64, count: u64, limit: u64) -> u64
    requires { sum ≤ capacity }
    ensures { result ≡ room_on_link capacity sum count limit }
{
    if count == 0 {
        limit
    } else {
        limit.min((capacity - sum) / count)
    }
}

// How much more each of the paths of a pair may have, up to the limit.
fn room(net: &Network, sums: &[u64], counts: &[u64], limit: u64) -> u64
    requires sums { length sums.now ≡ link_count net.now }
    requires counts { link_count net.now ≤ length counts.now }
    requires fit { (e : ℕ) → e < link_count net.now → slice_index sums.now e ≤ capacity_of net.now e }
    ensures { IsRoom net.now sums.now counts.now limit (link_count net.now) result }
{
    let mut most = limit;
    for e in 0..sums.len() {
        most = room_on_link(capacity_of(net, e), sums[e], counts[e], most);
    }
    most
}

// Raises the allocation of each pair in order as far as its cap and its links allow.
fn raise_all(net: &Network, routes: &[PairRoutes], caps: &[u64], even: &mut [u64], sums: &mut [u64])
    requires can { CanAdd net.now routes.now }
    requires caps { length caps.now ≡ length routes.now }
    requires even { length even.old ≡ length routes.now }
    requires small { (p : ℕ) → p < length routes.now → slice_index caps.now p ≤ 2 ^ 32 }
    requires within { (p : ℕ) → p < length routes.now → slice_index even.old p ≤ slice_index caps.now p }
    requires sums { AreValues (link_count net.now) (even_on routes.now (slice_index even.old)) sums.old }
    requires fits { EvenFits net.now routes.now (slice_index even.old) }
    ensures within { (p : ℕ) → p < length routes.now → slice_index even.new p ≤ slice_index caps.now p }
    ensures fits { EvenFits net.now routes.now (slice_index even.new) }
    ensures full { AreFull net.now routes.now (slice_index caps.now) (slice_index even.new) (length routes.now) }
{
    for p in 0..routes.len() {
        let counts = paths_of_pair_on_links(net, routes, p);
        let more = room(net, sums, &counts, caps[p] - even[p]);
        add_by_count(sums, &counts, more);
        even[p] += more;
    }
}

// One allocation for each pair, of which none can be raised.
fn even_allocations(
    alloc: Global,
    net: &Network,
    routes: &[PairRoutes],
    caps: &[u64],
) -> Result<Vec<u64>, Memory>
    requires can { CanAdd net.now routes.now }
    requires count { length caps.now ≡ length routes.now }
    requires small { (p : ℕ) → p < length routes.now → slice_index caps.now p ≤ 2 ^ 32 }
    ensures count { IfOk result (λ even. length even.items ≡ length routes.now) }
    ensures within { IfOk result (λ even. (p : ℕ) → p < length routes.now → slice_index even.items p ≤ slice_index caps.now p) }
    ensures fits { IfOk result (λ even. EvenFits net.now routes.now (slice_index even.items)) }
    ensures full { IfOk result (λ even. AreFull net.now routes.now (slice_index caps.now) (slice_index even.items) (length routes.now)) }
{
    let parts = fair_parts(alloc, net, routes, caps)?;
    let mut even = fraction_of(alloc, caps, parts)?;
    let mut sums = sums_of(alloc, net, routes, &even)?;
    raise_all(net, routes, caps, &mut even, &mut sums);
    Ok(even)
}

// The same allocation for each of the paths of a pair.
fn all_allocations(
    alloc: Global,
    routes: &[PairRoutes],
    even: &[u64],
) -> Result<Items<Items<u64>>, Memory>
    requires { length even.now ≡ length routes.now }
    ensures count { IfOk result (λ lists. length lists ≡ length routes.now) }
    ensures each { IfOk result (λ lists. (p : ℕ) → p < length routes.now →
        slice_index_or lists p [] ≡ replicate (length (routes_at routes.now p).paths) (slice_index even.now p)) }
{
    let mut lists = Vec::with_capacity(alloc, routes.len())?;
    for p in 0..routes.len() {
        let same = vec![in alloc; even[p]; paths_of(routes, p).len()]?;
        lists.push(Items::new(same))?;
    }
    Ok(Items::new(lists))
}

// What the allocations guard, up to the demand.
fn all_grants(
    alloc: Global,
    demands: &[u64],
    left: &[u64],
    even: &[u64],
) -> Result<Items<u64>, Memory>
    requires demands { length demands.now ≡ length left.now }
    requires even { length even.now ≡ length left.now }
    requires left { (p : ℕ) → p < length left.now → slice_index left.now p ≤ 32 }
    requires small { (p : ℕ) → p < length left.now → slice_index even.now p ≤ 2 ^ 32 }
    ensures { IfOk result (λ grants. AreValues (length left.now)
        (λ p. min (slice_index demands.now p) (slice_index left.now p * slice_index even.now p)) grants) }
{
    let mut grants = Vec::with_capacity(alloc, left.len())?;
    for p in 0..left.len() {
        grants.push(demands[p].min(left[p] * even[p]))?;
    }
    Ok(Items::new(grants))
}

/// The rates of these routes.
pub(crate) fn made_rates(
    alloc: Global,
    net: &Network,
    routes: &[PairRoutes],
    demands: &[u64],
    failures: u32,
) -> Result<RatePlan, Memory>
    requires can { CanAdd net.now routes.now }
    requires demands { AreDemands (length routes.now) demands.now }
    requires failures { failures ≤ 8 }
    ensures { IfOk result (IsProtection net.now routes.now demands.now failures) }
{
    let left = all_paths_left(alloc, net, routes, failures)?;
    let caps = all_caps(alloc, demands, &left)?;
    let even = even_allocations(alloc, net, routes, &caps)?;
    let grant = all_grants(alloc, demands, &left, &even)?;
    let allocation = all_allocations(alloc, routes, &even)?;
    Ok(RatePlan {
        failures,
        grant,
        allocation,
    })
}

/// Rates of the routing under which every grant can be carried whole whichever links fail, no more than `failures`, of which
/// there are at most 8. All paths of a pair have one allocation, which nothing can raise: where the pair's grant is below its
/// demand, one more on each of its paths does not fit some link. `matrix` has one demand for each pair.
///
/// # Errors
///
/// Only `Memory`, where memory runs out.
pub fn protect(
    alloc: Global,
    net: &Network,
    routing: &Routing,
    matrix: &Matrix,
    failures: u32,
) -> Result<RatePlan, Memory>
    requires network { IsTrue (is_well_formed net.now) }
    requires routing { IsPathRouting net.now routing.now.routes }
    requires few { HasFewPaths 32 routing.now.routes }
    requires pairs { length routing.now.routes ≤ FORMAT_2.pairs }
    requires demands { AreDemands (length routing.now.routes) matrix.now.demand }
    requires failures { failures ≤ 8 }
    ensures { IfOk result (IsProtection net.now routing.now.routes matrix.now.demand failures) }
{
    let routes = routing.routes.as_slice();
    let demands = matrix.demand.as_slice();
    made_rates(alloc, net, routes, demands, failures)
}
