//! Numbers at the ends of pairs that cover their shares on a link at the least cost, and a matrix that shows it.
#![tactic(auto)]

pub mod laws;
mod reach;
mod search;
mod transport;

pub use search::least_cover;
pub use transport::{EndShare, Transport};
