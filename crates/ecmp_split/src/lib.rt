//! Equal-cost multipath: flows that are split equally over the next links of least-cost paths, and
//! the scheme that routes each pair by them (RFC 2328, section 16.1; RFC 2991).
//!
//! - `split`: the flow of one pair. `equal_splits_are_one`: no other flow is split so.
//! - `Ecmp`: the scheme, whose paths are those of that flow. `multipath_splits_are_one`: no other
//!   paths are. `multipath_splits_exist`: each pair with a path has them.
#![tactic(auto)]

mod ecmp;
mod hops;
mod law;
mod least_cost;
mod next;
mod splitting;

pub use ecmp::{Ecmp, EcmpPlan};
pub use law::{equal_splits_are_one, multipath_splits_are_one, multipath_splits_exist};
pub use splitting::split;
