//! The rules U1 to U6 of a witness.
ghost use Rattle.std.specs.Prelude.{◌≡◌, ◌&&◌, ◌<◌, length};
ghost use Rattle.te_model.specs.Counting.{unless};
ghost use Rattle.te_model.specs.Validity.{fault_at, rule_fault};
ghost use Rattle.ratio_witness.specs.Rules.{has_bound, has_scale, has_small_demand, has_sound_rival, has_whole_rival, is_carried, witness_fault};

use crate::witness::Witness;
use te_model::{
    Head, RuleFault, SHARE_UNIT, all_paths, all_weighted, first_fault, paths_ascend, weights_sum,
};

fn has_bound(witness: &Witness) -> bool
    ensures { result ≡ has_bound witness.now }
{
    witness.bound < 10_000_000_000_000_000_000
}

fn has_scale(witness: &Witness) -> bool
    ensures { result ≡ has_scale witness.now }
{
    witness.x <= 1 << 36 && 1 <= witness.y && witness.y <= 1 << 36
}

fn has_small_demand(witness: &Witness, p: usize) -> bool
    ensures { result ≡ has_small_demand witness.now p }
{
    witness.demand_of(p) <= 1 << 32
}

fn is_carried(witness: &Witness, p: usize) -> bool
    ensures { result ≡ is_carried witness.now p }
{
    witness.demand_of(p) == 0 || 1 <= witness.rival_paths(p).len()
}

fn has_sound_rival(head: &Head, witness: &Witness, p: usize) -> bool
    requires { p < length head.now.routes }
    ensures { result ≡ has_sound_rival head.now witness.now p }
{
    let pair = head.routes.as_slice()[p].pair;
    let paths = witness.rival_paths(p);
    all_paths(&head.network, pair.src, pair.dst, paths) && paths_ascend(paths)
}

fn has_whole_rival(witness: &Witness, p: usize) -> bool
    ensures { result ≡ has_whole_rival witness.now p }
{
    let paths = witness.rival_paths(p);
    paths.is_empty() || all_weighted(paths) && weights_sum(paths) == u128::from(SHARE_UNIT)
}

// The fault of a rule with one place, where it does not hold.
pub(crate) fn fault_unless(holds: bool, number: u8) -> Option<RuleFault>
    ensures { result ≡ unless holds (fault_at number 0) }
{
    if holds {
        None
    } else {
        Some(RuleFault { number, place: 0 })
    }
}

// Where U3 fails first.
fn demand_fault(witness: &Witness, pairs: usize) -> Option<RuleFault>
    ensures { result ≡ rule_fault 3 pairs (has_small_demand witness.now) }
{
    first_fault(3, pairs, |p| has_small_demand(witness, p))
}

// Where U4 fails first.
fn carried_fault(witness: &Witness, pairs: usize) -> Option<RuleFault>
    ensures { result ≡ rule_fault 4 pairs (is_carried witness.now) }
{
    first_fault(4, pairs, |p| is_carried(witness, p))
}

// Where U5 fails first.
fn path_fault(head: &Head, witness: &Witness) -> Option<RuleFault>
    ensures { result ≡ rule_fault 5 (length head.now.routes) (has_sound_rival head.now witness.now) }
{
    first_fault(5, head.routes.as_slice().len(), |p| {
        has_sound_rival(head, witness, p)
    })
}

// Where U6 fails first.
fn weight_fault(witness: &Witness, pairs: usize) -> Option<RuleFault>
    ensures { result ≡ rule_fault 6 pairs (has_whole_rival witness.now) }
{
    first_fault(6, pairs, |p| has_whole_rival(witness, p))
}

/// The failing rule of the least number, at its least place, and `None` exactly where U1 to U6 hold. No memory is taken.
pub fn witness_fault(head: &Head, witness: &Witness) -> Option<RuleFault>
    ensures { result ≡ witness_fault head.now witness.now }
{
    let pairs = head.routes.as_slice().len();
    fault_unless(has_bound(witness), 1)
        .or(fault_unless(has_scale(witness), 2))
        .or(demand_fault(witness, pairs))
        .or(carried_fault(witness, pairs))
        .or(path_fault(head, witness))
        .or(weight_fault(witness, pairs))
}
