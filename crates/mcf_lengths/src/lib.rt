//! Multicommodity flow by lengths that grow with the loads on the links, after Garg and Könemann
//! (Faster and simpler algorithms for multicommodity flow and other fractional packing problems, 1998).
//!
//! - `Mcf`: the scheme. Its plan keeps the four least paths by cost of each pair.
//! - `make_rounds`, `rounds_routing`: the rounds alone, and the routing that they make.
#![tactic(auto)]

mod adaptive;
mod flow;
mod law;
mod loads;
mod paths;
mod round;
mod rounds;
mod split;
mod sweeps;
mod trees;

pub use flow::{Mcf, McfPlan};
pub use law::{balanced_routings_exist, flow_plans_exist, rounds_are_28};
pub use round::FlowRound;
pub use rounds::{make_rounds, rounds_routing};
