//! Rates that no single move improves: weight is moved between the paths of a pair, while this
//! lowers the greatest utilisation by a stated share.
//!
//! - `local_optimum`: a routing that is stable over the candidates of each pair.
//! - `paths_after`: the paths of a pair after one move.
#![tactic(auto)]

mod greatest;
mod law;
mod loads;
mod pairs;
mod search;
mod settling;
mod shifting;
mod step;

pub use law::stable_routings_exist;
pub use settling::local_optimum;
pub use shifting::paths_after;
