//! Routings that keep few paths of each pair.
//!
//! - `trim`: the heaviest paths of each pair stay.
#![tactic(auto)]

mod budget;
mod heavy;

pub use budget::trim;
