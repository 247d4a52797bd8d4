//! The plan of an experiment: the file that names a topology, matrices, failures, schemes and numbers.
//!
//! - `read_plan`: what a plan file asks for, or its first fault.
//! - `Experiment`: what a plan asks for, with `SchemeName` and `Recovery`.
//! - `PlanFault`: why a plan is refused, with `Key`.
//! - `plans_are_in_range`: what the definition of a plan gives is in range.
#![tactic(auto)]

mod experiment;
mod fault;
mod key;
mod law;
mod reader;
mod recovery;
mod scheme_name;
mod values;

pub use experiment::Experiment;
pub use fault::PlanFault;
pub use key::Key;
pub use law::plans_are_in_range;
pub use reader::read_plan;
pub use recovery::Recovery;
pub use scheme_name::SchemeName;
