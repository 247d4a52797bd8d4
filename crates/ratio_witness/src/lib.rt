//! Witnesses: a matrix and a rival routing of it show that no smaller ratio is an oblivious ratio of a routing.
//!
//! - `read` and `print`: the file of a witness.
//! - `judge` and `check_witness_text`: whether it shows its bound.
#![tactic(auto)]

mod answers;
mod fault;
pub mod laws;
mod loads;
mod printing;
mod reading;
mod rules;
mod utilisation;
mod verdict;
mod witness;

pub use answers::check_witness_text;
pub use fault::WitnessFault;
pub use printing::print;
pub use reading::read;
pub use rules::witness_fault;
pub use verdict::{WitnessVerdict, judge, performance_ratio};
pub use witness::Witness;
