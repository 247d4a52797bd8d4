//! What the blocks of a certificate prove of each link, and the same routing on other capacities.
//!
//! - `BoundsFeed`: the table of the needs of the links where the first three inequalities hold, or the first that fails, of blocks that
//!   come one at a time.
//! - `find_infeasibility`: which of the first three inequalities fails first.
//! - `have_same_links`: whether two networks differ in capacities and costs alone.
//! - `has_ratio_on`, `reprice`: the certificate with the capacities and costs of another network of the same links.
#![tactic(auto)]

mod bounds;
mod feasibility;
pub mod laws;
mod needs;
mod repricing;
mod same_links;
mod table;

pub use bounds::{Bounds, BoundsFeed};
pub use feasibility::find_infeasibility;
pub use repricing::{has_ratio_on, reprice};
pub use same_links::have_same_links;
