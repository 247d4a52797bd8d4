//! What is left of routings where links have failed exists, and so do rates over more pairs.
ghost use Rattle.local_recovery.specs.Laws.{RecoveriesExist, SpreadsExist};

/// In each mode, whichever links have failed, something is left of a routing: rates of the same pairs over few paths of the network.
pub fn recoveries_exist()
    ensures { RecoveriesExist }
{}

/// Routes over some of the pairs can be spread over all of them, which are rates of a network where the routes have few paths of it.
pub fn spreads_exist()
    ensures { SpreadsExist }
{}
