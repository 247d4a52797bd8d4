//! The commands about the routing of a certificate, beside its ratio: updates, rates that survive failed links, and bounds for a hose.
#![tactic(auto)]

mod bound_hose;
mod check_hose;
mod check_rates;
mod protect;
mod update;

pub use bound_hose::BoundHose;
pub use check_hose::CheckHose;
pub use check_rates::CheckRates;
pub use protect::{Protect, failures_of};
pub use update::Update;
