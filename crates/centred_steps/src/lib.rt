//! Steps of weights of links toward links of great usage and away from those of small usage, measured from the usage in their
//! middle: multiplicative weights by gains and losses (after Freund and Schapire, Adaptive game playing using multiplicative
//! weights, 1999), for those who seek weights by many sweeps of loads.
//!
//! - `step_weights`: the weights after a sweep. `spread_of`: the usage in the middle, and how far the greatest lies above it.
//! - `add_load`, `clear_loads`, `has_load`: the loads of a sweep.
//! - `last_links`, `narrowest_on` and `add_load_along`: the least ways from a node, and what they put on links.
#![tactic(auto)]

mod loads;
mod stepping;
mod usage_spread;
mod ways;

pub use loads::{add_load, clear_loads, has_load};
pub use stepping::{FIRST_WEIGHT, step_weights};
pub use usage_spread::{UsageSpread, spread_of};
pub use ways::{add_load_along, last_links, narrowest_on};
