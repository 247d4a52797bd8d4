//! Updates from one routing to another that overload no link: plans in steps, inside which each path has moved or not.
#![tactic(auto)]

mod answer;
mod fault;
pub mod laws;
mod loads;
mod path;
mod planning;
mod side_by_side;
mod stages;
mod steps;
mod text;

pub use answer::update_text;
pub use fault::UpdateFault;
pub use path::{MAX_STEPS, UpdatePath, UpdatePlan};
pub use planning::plan;
pub use text::print;
