//! Matrices of a demand set that use a link of a routing much more than another routing would have to (the worst matrices of
//! Applegate and Cohen, 2003), by sweeps of weights of the link.
//!
//! - `worst_matrices`: the means of the worst matrices that the stages of the sweeps meet, for the link whose block needs most.
#![tactic(auto)]

mod means;
mod members;
mod neediest;
mod quotient;
mod response;
mod sweeps;
mod usage;
mod worst;

pub use members::ScaledMatrix;
pub use worst::worst_matrices;
