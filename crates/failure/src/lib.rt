//! Link failures: the file that lists them, the links that have failed in a step, and the network that is left.
#![tactic(auto)]

mod fault;
mod outage;
mod reader;
mod series;
mod survivor;

pub use fault::FailureFault;
pub use outage::{Failures, Outage};
pub use reader::read;
pub use survivor::{Survivor, surviving};
