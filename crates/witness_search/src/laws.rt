//! A law of attacks. It is the contract of a function that does nothing.
ghost use Rattle.witness_search.specs.Laws.{AttacksExist};

use scheme::Scheme;

/// Where pairs that all have a path have a plan, and by it each matrix a routing of at most 32 paths of each pair, an attack on
/// a valid head has a file.
pub fn attacks_exist<S: Scheme>(_rival: &S)
    ensures { AttacksExist (S.is_plan _rival.now) (S.relates _rival.now) }
{}
