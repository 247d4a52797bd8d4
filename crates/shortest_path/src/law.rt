//! What is known of distances and least paths beyond any one search.
ghost use Rattle.shortest_path.specs.Laws.{DistancesAreOne, DistancesDouble, DistancesExist, DistancesStay, LeastPathsAreOne, LeastPathsExist, LeastWalksExist, PotentialsExist};

/// Two nodes have one distance.
pub fn distances_are_one()
    ensures { DistancesAreOne }
{}

/// Two nodes have one least path.
pub fn least_paths_are_one()
    ensures { LeastPathsAreOne }
{}

/// Links whose lengths change leave every distance as it is where none began a least way before, and none is a short cut now.
pub fn distances_stay()
    ensures { DistancesStay }
{}

/// Twice the lengths make twice the distances.
pub fn distances_double()
    ensures { DistancesDouble }
{}

/// Two nodes of a well-formed network have a least path, which is `None` where no links chain.
pub fn least_paths_exist()
    ensures { LeastPathsExist }
{}

/// Two nodes of a well-formed network have a least walk over open links, which is `None` where none leads there.
pub fn least_walks_exist()
    ensures { LeastWalksExist }
{}

/// Two nodes of a well-formed network have a distance, which is `None` where no links chain.
pub fn distances_exist()
    ensures { DistancesExist }
{}

/// Each node of a well-formed network has its potentials.
pub fn potentials_exist()
    ensures { PotentialsExist }
{}
