//! The search for a witness against smaller ratios: matrices of a certificate's set, and a scheme's routings of them as rivals.
//!
//! - `attack`: the witness of the first of the greatest performance ratio.
//! - `challenge`: that witness, or one of matrices that are found by a search of the link whose block needs most, if it shows more.
//! - `attack_text`, `challenge_text`: their files.
#![tactic(auto)]

mod answer;
mod attacks;
mod attempt;
mod candidates;
mod capacities;
mod challenges;
mod found;
pub mod laws;
mod limits;
mod search;

pub use answer::{attack_text, challenge_text};
pub use attacks::attack;
pub use challenges::challenge;
