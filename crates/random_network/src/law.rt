//! What holds of each network that a seed draws.
ghost use Rattle.random_network.specs.Laws.{DrawnNetworksAreFormed};

/// A network of 2 to 64 nodes that a seed draws is well formed, has a link and is connected, by the definitions alone.
pub fn drawn_networks_are_formed()
    ensures { DrawnNetworksAreFormed }
{}
