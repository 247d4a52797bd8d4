//! A step of a series in detail: what it asks of each link and what each link carries, what becomes of each pair's demand, and the paths
//! that the demands take.
//!
//! - `Breakdown`: the three tables of a step, one by links, one by pairs and one by paths.
//! - `breakdown_text`: one of them for a step, of each scheme of a plan.
//! - `steps_agree_with_rows`, `steps_stand_in_reports`: what the lines add up to, and that they are of a row of a report.
//! - `breakdowns_exist`: each step can be broken down.
#![tactic(auto)]

mod breakdown;
mod law;
mod least_cost;
mod link_use;
mod names;
mod pair_result;
mod scheme_step;
mod weighted_path;
mod writer;

pub use breakdown::Breakdown;
pub use law::{breakdowns_exist, steps_agree_with_rows, steps_stand_in_reports};
pub use writer::breakdown_text;
