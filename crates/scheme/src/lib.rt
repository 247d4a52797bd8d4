//! Routing schemes: how a scheme plans for a network and its declared pairs, and routes matrices.
//!
//! - `Scheme` and `Oblivious`, the traits with their laws. `LowNote`, what a scheme notes of a matrix.
//! - `Adaptive`: schemes that choose rates anew where some of their paths are gone. `given_rates`: what a scheme has that chooses none.
//! - `PairSplit` and `fixed_routing`: routings that split each pair's demand by a rule of its own.
//! - `Spf`: the least path by cost.
#![tactic(auto)]

mod adaptive;
mod fault;
mod fixed;
mod law;
mod low;
mod spf;
mod traits;

pub use adaptive::{Adaptive, given_rates};
pub use fault::SchemeFault;
pub use fixed::{PairSplit, fixed_routing};
pub use law::{least_splits_exist, routings_by_rules_exist};
pub use low::LowNote;
pub use spf::{Spf, SpfPlan};
pub use traits::{Oblivious, Scheme};
