//! The whole laboratory on a network that is drawn from a seed: no file is read.
//!
//! - `network`: the network of the seed (crate `random_network`).
//! - `summary`: what is published, judged and simulated on it, in seven lines.
//! - `summaries_prove_ratios`: what the line of the ratio says.
//! - `summaries_exist`: of 2 to 64 nodes and a seed there is one.
#![tactic(auto)]

mod drawn_file;
mod laws;
mod lines;
mod seven_lines;
mod totals;

pub use laws::{summaries_exist, summaries_prove_ratios};
pub use random_network::network;
pub use seven_lines::summary;
