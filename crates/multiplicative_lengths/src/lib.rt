//! Lengths of links that grow with the loads on them: multiplicative weights, as in multicommodity
//! flow (Garg and Könemann, Faster and simpler algorithms for multicommodity flow, 1998) and in mixes
//! of trees (Räcke, Optimal hierarchical decompositions for congestion minimization, 2008).
//!
//! - `first_multipliers` and `lengths_of`: the lengths that a round begins with.
//! - `add_along`, `add_wide_along`: what a path puts on its links, in 64 bits and in 128.
//! - `greatest_usage` and `grow`: the multipliers of the next round.
//! - `laws`: how far lengths and multipliers go.
#![tactic(auto)]

mod growth;
pub mod laws;
mod lengths;
mod loads;

pub use growth::{greatest_usage, grow};
pub use lengths::{first_multipliers, lengths_of};
pub use loads::{add_along, add_wide_along};
