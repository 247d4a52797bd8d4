//! The commands about the ratio of a certificate: whether it is proved, what the blocks prove of each link, witnesses against smaller
//! ratios, and certificates of the same routing.
#![tactic(auto)]

mod attack;
mod bounds;
mod challenge;
mod check;
mod check_network;
mod check_witness;
mod convert;
mod reprice;
mod tighten;

pub use attack::Attack;
pub use bounds::Bounds;
pub use challenge::Challenge;
pub use check::Check;
pub use check_network::CheckNetwork;
pub use check_witness::CheckWitness;
pub use convert::Convert;
pub use reprice::Reprice;
pub use tighten::Tighten;
