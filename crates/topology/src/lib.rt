//! Topologies: the network that the rows of a CSV file make.
//!
//! - `read`: the network of a file, or `TopologyFault`, why it is refused.
//! - `topologies_are_formed`: what the definition of that network gives is well formed and has a link.
#![tactic(auto)]

mod draft;
mod entry;
mod fault;
mod law;
mod nodes;
mod reader;

pub use fault::TopologyFault;
pub use law::topologies_are_formed;
pub use reader::read;
