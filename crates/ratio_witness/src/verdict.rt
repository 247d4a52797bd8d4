//! The verdict on a witness.
ghost use Rattle.std.specs.Prelude.{◌≡◌, ◌↔◌, ℕ, ◌<◌, length, IsTrue};
ghost use Rattle.te_model.specs.Counting.{IsUpTo, unless};
ghost use Rattle.te_model.specs.Validity.{IsValidHead, FailsFrom, fault_at, rule_fault};
ghost use Rattle.ratio_witness.specs.Judged.{CanJudge};
ghost use Rattle.ratio_witness.specs.Rules.{KeepsRules};
ghost use Rattle.ratio_witness.specs.Verdict.{is_between, is_in_set, ratio_shown, shows_bound, verdict_fault, verdict_of, verdict_rules};
ghost use Rattle.ratio_witness.specs.Witness.{NoLowerRatio};

use crate::loads::{loads_by_rival, loads_by_routes};
use crate::rules::fault_unless;
use crate::utilisation::utilisation_ratio;
use crate::witness::Witness;
use te_model::{DemandSet, Head, RuleFault, first_fault};

/// The verdict on a witness.
#[derive(Clone, Copy, Debug, PartialEq, Eq)]
pub enum WitnessVerdict {
    /// No number below the bound is an oblivious ratio of the routing for its set.
    Yes,
    /// What fails first: rule 1, that the matrix is of the set, at the first pair whose demand is not, or else rule 2, that
    /// the bound is at most the performance ratio, at place 0.
    No { rule: u8, place: u64 },
}

// Whether the demand of the pair lies between its bounds, times the scale.
fn is_between(head: &Head, witness: &Witness, p: usize) -> bool
    requires judged { CanJudge head.now witness.now }
    requires pair { p < length head.now.routes }
    ensures { result ≡ is_between head.now.set witness.now p }
{
    let least = u128::from(witness.x) * u128::from(head.set.lower(p));
    let scaled = u128::from(witness.y) * u128::from(witness.demand_of(p));
    let most = u128::from(witness.x) * u128::from(head.set.upper(p));
    least <= scaled && scaled <= most
}

// J1 of the pair.
fn is_in_set(head: &Head, witness: &Witness, p: usize) -> bool
    requires judged { CanJudge head.now witness.now }
    requires pair { p < length head.now.routes }
    ensures { result ≡ is_in_set head.now.set witness.now p }
{
    match &head.set {
        DemandSet::All => true,
        DemandSet::Margin { .. } => is_between(head, witness, p),
        DemandSet::Box { .. } => is_between(head, witness, p),
    }
}

// The performance ratio, where its numbers are known to be small.
fn ratio_shown(head: &Head, witness: &Witness) -> u128
    requires { CanJudge head.now witness.now }
    ensures { result ≡ ratio_shown head.now witness.now }
{
    let loads = loads_by_routes(head, witness);
    let by_rival = loads_by_rival(head, witness);
    utilisation_ratio(&head.network, &loads, &by_rival)
}

/// How many times the rival's greatest utilisation that of the certificate's routing is, under the matrix of the witness,
/// in millionths, rounded up: the performance ratio (Applegate and Cohen, 2003) against one rival. It is 0 where no pair
/// has a demand. Takes no memory.
pub fn performance_ratio(head: &Head, witness: &Witness) -> u128
    requires head { IsValidHead head.now }
    requires rules { KeepsRules head.now witness.now }
    ensures { result ≡ ratio_shown head.now witness.now }
{
    ratio_shown(head, witness)
}

// Where J1 fails first.
fn set_fault(head: &Head, witness: &Witness) -> Option<RuleFault>
    requires { CanJudge head.now witness.now }
    ensures { result ≡ rule_fault 1 (length head.now.routes) (is_in_set head.now.set witness.now) }
{
    first_fault(
        1,
        head.routes.as_slice().len(),
        |p| is_in_set(head, witness, p),
    )
}

// The fault of J2.
fn bound_fault(head: &Head, witness: &Witness) -> Option<RuleFault>
    requires { CanJudge head.now witness.now }
    ensures { result ≡ unless (shows_bound head.now witness.now) (fault_at 2 0) }
{
    let shown = ratio_shown(head, witness);
    fault_unless(u128::from(witness.bound) <= shown, 2)
}

// The first of J1 and J2 that fails.
fn verdict_fault(head: &Head, witness: &Witness) -> Option<RuleFault>
    requires { CanJudge head.now witness.now }
    ensures { result ≡ verdict_fault head.now witness.now }
{
    match set_fault(head, witness) {
        Some(fault) => Some(fault),
        None => bound_fault(head, witness),
    }
}

fn verdict(head: &Head, witness: &Witness) -> WitnessVerdict
    requires { CanJudge head.now witness.now }
    ensures { result ≡ verdict_of (verdict_fault head.now witness.now) }
{
    match verdict_fault(head, witness) {
        None => WitnessVerdict::Yes,
        Some(fault) => WitnessVerdict::No {
            rule: fault.number,
            place: fault.place,
        },
    }
}

/// Whether the matrix of the witness is of the certificate's set, and its bound at most the performance ratio, or else what
/// fails first.
///
/// Takes no memory: the loads of all links stand in two tables on the stack, and each path is walked once.
pub fn judge(head: &Head, witness: &Witness) -> WitnessVerdict
    requires head { IsValidHead head.now }
    requires rules { KeepsRules head.now witness.now }

    ensures verdict { result ≡ verdict_of (verdict_fault head.now witness.now) }
    ensures yes { (result ≡ WitnessVerdict.Yes)
        ↔ (((p : ℕ) → p < length head.now.routes → IsTrue (is_in_set head.now.set witness.now p)) × IsTrue (shows_bound head.now witness.now)) }

    // The failing rule of the least number, at its least place.
    ensures no { (rule place : ℕ) → result ≡ WitnessVerdict.No rule place →
        FailsFrom 1 (verdict_rules head.now witness.now) rule place
        × ((r k : ℕ) → FailsFrom 1 (verdict_rules head.now witness.now) r k → IsUpTo rule place r k) }

    // No number below the bound is an oblivious ratio of the certificate's routing for its set.
    ensures ratio { result ≡ WitnessVerdict.Yes →
        NoLowerRatio head.now.network head.now.routes head.now.set witness.now.bound }
{
    verdict(head, witness)
}
