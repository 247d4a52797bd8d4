//! The mix of decomposition trees, after Räcke (Optimal hierarchical decompositions for congestion
//! minimization in networks, 2008), and the scheme that splits each demand evenly over its tree paths.
//!
//! - `Racke`: the scheme. Its plan keeps the rounds of the mix.
//! - `Round`: the lengths, order, scale and tree of a round.
#![tactic(auto)]

mod drawing;
mod law;
mod loads;
mod racke;
mod round;
mod rounds;
mod split;

pub use law::{mixes_exist, racke_plans_exist};
pub use racke::{Racke, RackePlan};
pub use round::Round;
