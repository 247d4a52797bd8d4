//! The simulation of one step: what becomes of each demand on links that may be full or have failed.
//!
//! - `fair_share`: max-min fair shares of what a link has left.
//! - `step`: a whole step, and what each pair and each link had of it.
//! - `asked_units`: what a step asks of each link.
#![tactic(auto)]

mod asked;
mod fair;
mod law;
mod queue;
mod queues;
mod result;
mod rounds;
mod serve;
mod simulation;
mod state;
mod tables;

pub use asked::asked_units;
pub use fair::fair_share;
pub use law::{links_are_asked_near_load, links_serve_fairly};
pub use result::{PairResult, StepResult};
pub use simulation::step;
