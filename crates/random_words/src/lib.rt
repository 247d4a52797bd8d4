//! The words that are drawn from a seed.
#![tactic(auto)]

mod generator;

pub use generator::{draw, generator_of};
