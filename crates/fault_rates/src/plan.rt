//! Rates of the pairs of a routing.
ghost use Rattle.std.specs.Prelude.{◌≡◌, ◌↔◌, ◌<◌, Some, length, nat_le};
ghost use Rattle.std.specs.List.{list_all};
ghost use Rattle.te_model.specs.Validity.{rule_fault};
ghost use Rattle.number_tables.specs.Rules.{IsFirstRuleOf};
ghost use Rattle.fault_rates.specs.Plan.{has_small_rates, is_rate, plan_fault, plan_rules};

use crate::parts::allocations_of;
use te_model::{Items, RuleFault, first_fault};

/// What each pair is granted and each of its paths is allocated, so that every grant can be carried whole whichever links
/// fail, no more than so many (after FFC; Liu and others, 2014). Grants and allocations are in the unit of the capacities.
#[derive(Drop)]
pub struct RatePlan {
    /// How many links may fail.
    pub failures: u32,
    /// One grant for each pair.
    pub grant: Items<u64>,
    /// For each pair one allocation for each of its paths, in their order.
    pub allocation: Items<Items<u64>>,
}

/// The greatest number of failed links.
pub const MAX_FAILURES: u32 = 8;

/// The greatest grant and the greatest allocation.
const MAX_RATE: u64 = 1 << 32;

fn are_rates(numbers: &[u64]) -> bool
    ensures { result ≡ list_all is_rate numbers.now }
{
    numbers.iter().all(|x| *x <= MAX_RATE)
}

// G2 of the pair.
fn has_small_rates(plan: &RatePlan, pair: usize) -> bool
    requires grant { pair < length plan.now.grant }
    requires allocation { pair < length plan.now.allocation }
    ensures { result ≡ has_small_rates plan.now pair }
{
    plan.grant.as_slice()[pair] <= MAX_RATE && are_rates(allocations_of(plan, pair))
}

// Where G1 fails.
fn failures_fault(plan: &RatePlan) -> Option<RuleFault>
    ensures { result ≡ rule_fault 1 1 (λ k. nat_le plan.now.failures 8) }
{
    if plan.failures <= MAX_FAILURES {
        None
    } else {
        Some(RuleFault {
            number: 1,
            place: 0,
        })
    }
}

// The first pair at which G2 fails.
fn rates_fault(plan: &RatePlan) -> Option<RuleFault>
    requires { length plan.now.allocation ≡ length plan.now.grant }
    ensures { result ≡ rule_fault 2 (length plan.now.grant) (has_small_rates plan.now) }
{
    first_fault(2, plan.grant.as_slice().len(), |p| has_small_rates(plan, p))
}

/// The failing rule of the least number, G1 or G2, at its least place, and `None` exactly where both hold. G1: there are at
/// most 8 failures (place 0). G2: the grant and the allocations of the pair are at most 2^32 (place: the pair). Takes no
/// memory.
pub fn plan_fault(plan: &RatePlan) -> Option<RuleFault>
    requires { length plan.now.allocation ≡ length plan.now.grant }
    ensures search { result ≡ plan_fault plan.now }
    ensures first { (f : RuleFault) → (result ≡ Some f) ↔ IsFirstRuleOf (plan_rules plan.now) f }
{
    failures_fault(plan).or(rates_fault(plan))
}
