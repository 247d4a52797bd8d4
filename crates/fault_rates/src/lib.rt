//! Rates that survive failed links: their file, judging them, and making them; and what commands answer of them.
#![tactic(auto)]

mod answers;
mod fault;
mod guard;
pub mod laws;
mod maker;
mod parts;
mod plan;
mod reader;
pub mod spelling;
mod sums;
mod verdict;
mod writer;

pub use answers::{check_rates_text, protect_text};
pub use fault::RateFault;
pub use maker::protect;
pub use plan::{MAX_FAILURES, RatePlan, plan_fault};
pub use reader::{read, read_by_routes};
pub use verdict::{RateVerdict, judge};
pub use writer::print;
