//! Routings of a matrix by sweeps: in each the pairs take paths by lengths of the links, and the lengths of the links that are used
//! most grow (centred steps). A mean of the sweeps is a routing, and the lengths of a sweep bound every routing from below.
//!
//! - `DualState`, `first_dual_state`, `take_sweep` and `end_sweep`: where sweeps stand, and what a sweep does, by paths or by its loads
//!   alone. `STAGES` and the other constants: how many sweeps there are, and by what their steps are divided.
//! - `Sweep` and `add_counted`: the sweeps of a stage that count. `routing_by`: the routing in which each pair has its paths of them.
//! - `cheapest_paths` and `load_cheapest`: the path of each pair in a sweep over given paths, and the loads of the sweep.
//! - `lesser`: the better one of two routings.
//! - `loads_by_capacity` and `greatest_number`: what lengths by the usage of links are made of.
//! - `Descent`, `first_descent`, `next_lengths` and `take_turn`: turns that take weight from dear paths to cheap ones.
#![tactic(auto)]

mod choice;
mod descent;
mod dual_state;
mod mix;
mod pace;
mod paths;
mod schedule;
mod shifting;
mod usage;

pub use choice::lesser;
pub use descent::{Descent, first_descent, next_lengths, take_turn};
pub use dual_state::{DualState, end_sweep, first_dual_state, offer, take_sweep};
pub use mix::{Sweep, add_counted, routing_by};
pub use pace::{Pace, TURNS, is_over};
pub use paths::{cheapest_paths, load_cheapest};
pub use schedule::{
    BOUND_STAGES, COUNTED, FIRST_BOUND_DIVISOR, FIRST_KEPT_DIVISOR, FIRST_STAGE_DIVISOR,
    MAX_DIVISOR, SECOND_KEPT_DIVISOR, STAGES, SWEEPS, UNCOUNTED,
};
pub use usage::{greatest_number, loads_by_capacity};
