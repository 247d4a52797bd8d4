//! What holds of each network that a topology makes.
ghost use Rattle.topology.specs.Laws.{TopologiesAreFormed};

/// The network that the bytes of a topology make is well formed and has a link, by the definitions alone.
pub fn topologies_are_formed()
    ensures { TopologiesAreFormed }
{}
