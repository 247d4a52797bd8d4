//! The names of nodes.
ghost use Rattle.std.specs.Prelude.{◌≡◌, ◌<◌};
ghost use Rattle.te_model.specs.Network.{name_at, node_count};

use te_model::Network;

/// The name of the node.
pub fn name_of(net: &Network, node: u32) -> &str
    requires { node < node_count net.now }
    ensures { result.now ≡ name_at net.now node }
{
    net.names.as_slice()[node as usize].as_str()
}
