//! The scheme of a routing whose oblivious ratio is small, found by sweeps that move weights and rates together.
//!
//! A certificate of the ratio has weights of the links for each link, by which each pair may send so much over that link. A sweep
//! moves the weights of each link toward the links that its dearest pairs need, and the rates of each pair toward the paths over
//! links where it uses little of what it may send. The routing of the sweep whose weights prove the least ratio is kept (after the
//! linear program of Applegate and Cohen, 2003, by steps of Freund and Schapire, 1999).
//!
//! - `Robust`, the scheme, and `RobustPlan`, its plan.
#![tactic(auto)]

mod joint;
mod law;
mod lengths;
mod links;
mod loads;
mod lowering;
mod moving;
mod offering;
mod pairs;
mod rates;
mod robust;
mod round;
mod rows;
mod split;
mod start;
mod sweep;
mod table;
mod tables;
mod weights;

pub use law::robust_plans_exist;
pub use robust::{Robust, RobustPlan};
