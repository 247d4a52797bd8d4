//! The scheme that sends each demand in even parts by way of every node (Valiant, 1982).
#![tactic(auto)]

mod detours;
mod even;
mod law;
mod legs;
mod valiant;

pub use law::valiant_splits_exist;
pub use valiant::{Valiant, ValiantPlan};
