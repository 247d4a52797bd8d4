//! Semi-oblivious routing (SMORE; Kumar et al., 2018): the paths are those of an oblivious routing, and the rates follow the
//! matrix.
//!
//! - `Semi`: the scheme, over any oblivious scheme. Its plan keeps the fixed paths.
#![tactic(auto)]

mod law;
mod semi;
mod sweeps;
mod usage;

pub use law::{adapted_rates_exist, adapted_routings_exist, fixed_routings_exist};
pub use semi::{Semi, SemiPlan};
