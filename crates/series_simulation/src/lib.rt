//! The simulation of a series: any scheme routes the traffic matrix of each step, and the step is simulated.
//!
//! - `drive`: one row for each step.
//! - `prepare_connected`, `step_of`: what serves all steps, a `Preparation`, and one of them with the paths that its demands took.
//! - `row_after`: the row of a step where the row of another is known and some `SurvivorPreparation`s are kept, each what was prepared for
//!   the network that some failed links leave.
//! - `kept_row`: the row of a step by a routing that is kept for every matrix. `kept_rows_exist`, `kept_rows_have_parts`: a series has such
//!   rows, and the greatest utilisation of each is that of the routing.
//! - `step_rows_exist`, `steps_exist`, `steps_stand_in_rows`: every series has rows, each of its steps exists, and the row of each step
//!   is one of such rows, where the scheme has plans and routings. `predictions_change_nothing`: where it keeps one routing for all
//!   matrices, states no bound and chooses no rates anew, its rows are those that it has without predictions.
//! - `adapted_rates_stand`: rates that are chosen anew over paths that stand hold no failed link.
//! - `matrix_of`: the matrix of a step. `utilisation`: how far a link is used.
//! - `StepRow`: what became of the traffic of a step, and how far the links were used. `SimulatedStep`: the same with the paths.
#![tactic(auto)]

mod adapted_rates;
mod connected_pairs;
mod kept_preparations;
mod kept_routing;
mod law;
mod original_links;
mod peak;
mod preparation;
mod prepared_step;
mod reachability;
mod recovery;
mod repeated_step;
mod scheme_routing;
mod series_rows;
mod standing_paths;
mod step_input;
mod step_matrices;
mod step_routing;
mod step_row;
mod step_simulation;
mod survivor_preparation;

pub use kept_routing::kept_row;
pub use law::{
    adapted_rates_stand, kept_rows_exist, kept_rows_have_parts, predictions_change_nothing,
    step_rows_exist, steps_exist, steps_stand_in_rows,
};
pub use peak::utilisation;
pub use preparation::{Preparation, prepare_connected};
pub use repeated_step::row_after;
pub use series_rows::{drive, step_of};
pub use step_matrices::matrix_of;
pub use step_row::{SimulatedStep, StepRow};
pub use survivor_preparation::SurvivorPreparation;
