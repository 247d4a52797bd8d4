//! The first paths between two nodes in the order of their costs (Yen, 1971; Lawler, 1972), and the
//! scheme that splits each demand evenly over them.
#![tactic(auto)]

mod candidate;
mod class;
mod direct;
mod ksp;
mod law;
mod least;
mod marks;
mod order;
mod outgoing;
mod search;
mod sums;

pub use ksp::{Ksp, KspPlan, KspWays};
pub use law::{even_splits_exist, first_paths_exist};
pub use least::{k_least, k_least_by};
