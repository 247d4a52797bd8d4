//! The verdict on rates: F1 of each link, then F2 and F3 of each pair.
ghost use Rattle.std.specs.Prelude.{◌≡◌, ◌↔◌, ℕ, ◌<◌, ◌≤◌, length, nat_le, slice_index, IfOk, IsTrue, Ok};
ghost use Rattle.te_model.specs.declared.limits.TheConstants.{FORMAT_2};
ghost use Rattle.te_model.specs.Network.{capacity_of, is_well_formed, link_count};
ghost use Rattle.te_model.specs.PathRouting.{IsPathRouting};
ghost use Rattle.te_model.specs.Validity.{fault_at, rule_fault};
ghost use Rattle.number_tables.specs.Rules.{IsFirstRuleOf};
ghost use Rattle.routing.specs.Routes.{AreDemands, HasFewPaths};
ghost use Rattle.fault_rates.specs.Plan.{IsValidPlan, protection_by};
ghost use Rattle.fault_rates.specs.Protection.{AreGuarded, SurvivesFailures};
ghost use Rattle.fault_rates.specs.Tables.{CanJudge, allocated_on, guard_by};
ghost use Rattle.fault_rates.specs.Verdict.{guard_fault, guard_rules, verdict_of};

use crate::guard::guard;
use crate::parts::{allocations_of, capacity_of, link_count, paths_of};
use crate::plan::RatePlan;
use crate::sums::allocated;
use routing::Routing;
use std::alloc::Global;
use te_model::{Matrix, Memory, Network, PairRoutes, RuleFault, first_fault};

/// The verdict on rates.
#[derive(Clone, Copy, Debug, PartialEq, Eq)]
pub enum RateVerdict {
    /// The allocations fit the links, and each grant is within what the pair's allocations guard and within its demand.
    Yes,
    /// The first inequality that fails, and where: F1 at a link, F2 and F3 at a pair.
    No { rule: u8, place: u64 },
}

// F1: whether the sum on the link is within its capacity.
fn fits_link(net: &Network, sums: &[u64], link: usize) -> bool
    requires link { link < link_count net.now }
    requires count { length sums.now ≡ link_count net.now }
    ensures { result ≡ nat_le (slice_index sums.now link) (capacity_of net.now link) }
{
    sums[link] <= capacity_of(net, link)
}

// F2: whether the grant of the pair is within what its allocations guard.
fn is_guarded(net: &Network, routes: &[PairRoutes], plan: &RatePlan, pair: usize) -> bool
    requires can { CanJudge net.now routes.now plan.now }
    requires pair { pair < length routes.now }
    ensures { result ≡ nat_le (slice_index plan.now.grant pair) (guard_by net.now routes.now plan.now pair) }
{
    let paths = paths_of(routes, pair);
    let allocation = allocations_of(plan, pair);
    let guarded = guard(paths, link_count(net), allocation, plan.failures);
    plan.grant.as_slice()[pair] <= guarded
}

// F3: whether the grant of the pair is within its demand.
fn is_wanted(plan: &RatePlan, matrix: &Matrix, pair: usize) -> bool
    requires grant { pair < length plan.now.grant }
    requires demand { pair < length matrix.now.demand }
    ensures { result ≡ nat_le (slice_index plan.now.grant pair) (slice_index matrix.now.demand pair) }
{
    plan.grant.as_slice()[pair] <= matrix.demand.as_slice()[pair]
}

// The first link at which F1 fails.
fn first_overfull(net: &Network, sums: &[u64]) -> Option<RuleFault>
    requires { length sums.now ≡ link_count net.now }
    ensures { result ≡ rule_fault 1 (link_count net.now) (λ e. nat_le (slice_index sums.now e) (capacity_of net.now e)) }
{
    first_fault(1, sums.len(), |e| fits_link(net, sums, e))
}

// The first pair at which F2 fails.
fn first_unguarded(net: &Network, routes: &[PairRoutes], plan: &RatePlan) -> Option<RuleFault>
    requires { CanJudge net.now routes.now plan.now }
    ensures { result ≡ rule_fault 2 (length routes.now) (λ p. nat_le (slice_index plan.now.grant p) (guard_by net.now routes.now plan.now p)) }
{
    first_fault(2, routes.len(), |p| is_guarded(net, routes, plan, p))
}

// The first pair at which F3 fails.
fn first_unwanted(pairs: usize, plan: &RatePlan, matrix: &Matrix) -> Option<RuleFault>
    requires grants { length plan.now.grant ≡ pairs }
    requires demands { length matrix.now.demand ≡ pairs }
    ensures { result ≡ rule_fault 3 pairs (λ p. nat_le (slice_index plan.now.grant p) (slice_index matrix.now.demand p)) }
{
    first_fault(3, pairs, |p| is_wanted(plan, matrix, p))
}

// The first of F1 to F3 that fails, where these are the sums of the allocations on the links.
fn fault_of(
    net: &Network,
    routes: &[PairRoutes],
    matrix: &Matrix,
    plan: &RatePlan,
    sums: &[u64],
) -> Option<RuleFault>
    requires can { CanJudge net.now routes.now plan.now }
    requires demands { length matrix.now.demand ≡ length routes.now }
    requires count { length sums.now ≡ link_count net.now }
    requires sums { (e : ℕ) → slice_index sums.now e ≡ allocated_on routes.now plan.now e }
    ensures { result ≡ guard_fault (protection_by net.now routes.now matrix.now.demand plan.now) }
{
    first_overfull(net, sums)
        .or(first_unguarded(net, routes, plan))
        .or(first_unwanted(routes.len(), plan, matrix))
}

// The verdict that the first fault makes.
fn verdict_of(fault: Option<RuleFault>) -> RateVerdict
    ensures { result ≡ verdict_of fault }
{
    match fault {
        None => RateVerdict::Yes,
        Some(fault) => RateVerdict::No {
            rule: fault.number,
            place: fault.place,
        },
    }
}

/// The verdict on rates of these routes.
pub(crate) fn verdict_on(
    alloc: Global,
    net: &Network,
    routes: &[PairRoutes],
    matrix: &Matrix,
    plan: &RatePlan,
) -> Result<RateVerdict, Memory>
    requires can { CanJudge net.now routes.now plan.now }
    requires demands { length matrix.now.demand ≡ length routes.now }
    ensures { IfOk result (λ v. v ≡ verdict_of (guard_fault (protection_by net.now routes.now matrix.now.demand plan.now))) }
{
    let sums = allocated(alloc, net, routes, plan)?;
    Ok(verdict_of(fault_of(net, routes, matrix, plan, &sums)))
}

/// The verdict on rates of a routing of the network, which has at most 32 paths for each pair. `matrix` has one demand for
/// each pair.
///
/// `Memory` comes where memory is wanting.
pub fn judge(
    alloc: Global,
    net: &Network,
    routing: &Routing,
    matrix: &Matrix,
    plan: &RatePlan,
) -> Result<RateVerdict, Memory>
    requires network { IsTrue (is_well_formed net.now) }
    requires routing { IsPathRouting net.now routing.now.routes }
    requires few { HasFewPaths 32 routing.now.routes }
    requires pairs { length routing.now.routes ≤ FORMAT_2.pairs }
    requires demands { AreDemands (length routing.now.routes) matrix.now.demand }
    requires plan { IsValidPlan routing.now.routes plan.now }
    ensures verdict { IfOk result (λ v. v ≡ verdict_of (guard_fault (protection_by net.now routing.now.routes matrix.now.demand plan.now))) }
    ensures yes { IfOk result (λ v. (v ≡ RateVerdict.Yes) ↔ AreGuarded (protection_by net.now routing.now.routes matrix.now.demand plan.now)) }

    // The failing inequality and place that are least in this order.
    ensures no { (rule place : ℕ) → result ≡ Ok (RateVerdict.No rule place) →
        IsFirstRuleOf (guard_rules (protection_by net.now routing.now.routes matrix.now.demand plan.now)) (fault_at rule place) }

    // Whichever links fail, no more than so many, every grant can be carried whole.
    ensures survives { result ≡ Ok RateVerdict.Yes →
        SurvivesFailures (protection_by net.now routing.now.routes matrix.now.demand plan.now) }
{
    verdict_on(alloc, net, routing.routes.as_slice(), matrix, plan)
}
