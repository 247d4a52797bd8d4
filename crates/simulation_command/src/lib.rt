//! The command that simulates the routing of a certificate over the matrices and the failures of a plan.
#![tactic(auto)]

mod simulate;
mod simulation_files;

pub use simulate::Simulate;
