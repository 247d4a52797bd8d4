//! Networks that are drawn from a seed.
//!
//! - `network`: the network of a seed and a number of nodes.
//! - `drawn_networks_are_formed`: what its definition gives is well formed, has a link and is connected.
#![tactic(auto)]

mod drawn_network;
mod law;
mod links;
mod names;

pub use drawn_network::network;
pub use law::drawn_networks_are_formed;
