//! The records of a CSV file that lies in memory, and what their fields spell.
#![tactic(auto)]

mod field;
mod rows;

pub use field::{number, number_within};
pub use rows::Rows;
