//! How many rounds multicommodity flow takes, and what exists of its plans and routings.
ghost use Rattle.std.specs.Prelude.{◌≡◌};
ghost use Rattle.mcf_lengths.specs.declared.round.TheConstants.{ROUNDS};
ghost use Rattle.mcf_lengths.specs.Laws.{BalancedRoutingsExist, FlowPlansExist};

/// There are 28 rounds.
pub fn rounds_are_28()
    ensures { ROUNDS ≡ 28 }
{}

/// Pairs of a network, of which each has a path, have a plan.
pub fn flow_plans_exist()
    ensures { FlowPlansExist }
{}

/// By a plan each matrix has a balanced routing of at most 32 paths for a pair, with its bracket.
pub fn balanced_routings_exist()
    ensures { BalancedRoutingsExist }
{}
