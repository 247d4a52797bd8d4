//! Ways that searches have shown for the pairs with a share on a link, kept for the sweeps between searches: the columns of a
//! restricted problem (column generation; Dantzig and Wolfe, 1960).
//!
//! - `KeptWays`: the ways, their lengths by the weights of the moment, and what they put on the links.
//! - `nearness` and `amount_of`: what a way sends in the worst of all matrices.
#![tactic(auto)]

mod amount;
mod lengths;
mod links;
mod longest;
mod ways;

pub use amount::{amount_of, nearness};
pub use ways::{KeptWay, KeptWays};
