//! What is known of routings that no move improves, beyond any one search.
ghost use Rattle.local_search.specs.Laws.{StableRoutingsExist};

/// From every routing some moves to candidates of its pairs lead to a stable routing that is no worse.
pub fn stable_routings_exist()
    ensures { StableRoutingsExist }
{}
