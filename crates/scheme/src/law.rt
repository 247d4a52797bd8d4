//! What exists of splits and routings.
ghost use Rattle.scheme.specs.Laws.{LeastSplitsExist, RoutingsByRulesExist};

use crate::fixed::PairSplit;

/// Where a rule gives each pair with a path a split, it gives pairs with paths a routing.
pub fn routings_by_rules_exist<S: PairSplit>(_rule: &S)
    ensures { RoutingsByRulesExist (S.splits _rule.now) S.limit }
{}

/// Each pair with a path has the split by which its least path by cost carries the whole demand.
pub fn least_splits_exist()
    ensures { LeastSplitsExist }
{}
