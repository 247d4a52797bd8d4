//! The commands of plans, which run the laboratory: what is published, reported and broken down of one, and drawn networks.
#![tactic(auto)]

mod break_down;
mod generate;
mod publish;
mod run_plan;

pub use break_down::{BreakDown, step_of};
pub use generate::{Generate, generate_of};
pub use publish::Publish;
pub use run_plan::RunPlan;
