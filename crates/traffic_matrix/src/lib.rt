//! Traffic matrices: the file of a series of them, step by step, and a generator.
//!
//! - `read` and `print`: the series of a file, or `MatrixFault`, and the file of a series.
//! - `first_row_outside`: the first row of a file whose pair is none of some pairs.
//! - `first_matrix`: the matrix of the first step of a series. `with_pairs`: a series over more pairs.
//! - `gravity`: a series that is drawn from a seed.
//! - `Traffic`: the matrices that a network is to carry, and those that schemes are given in their place, if any.
//! - `series_are_in_range`, `first_matrices_are_in_range`, `gravity_is_in_range`, `traffic_is_in_range`: what their definitions give is
//!   within the limits. `sent_stays`: predictions of no further pair leave what is sent as it is.
//!   `pairs_stay_inside`: a file without a row outside some pairs declares no other pair.
#![tactic(auto)]

mod demands;
mod entry;
mod fault;
mod first;
mod generator;
mod law;
mod nodes;
mod outside;
mod pair_union;
mod reader;
mod series;
mod series_over;
mod step_demands;
mod table;
mod traffic;
mod writer;

pub use fault::MatrixFault;
pub use first::first_matrix;
pub use generator::gravity;
pub use law::{
    first_matrices_are_in_range, gravity_is_in_range, pairs_stay_inside, sent_stays,
    series_are_in_range, traffic_is_in_range,
};
pub use outside::first_row_outside;
pub use reader::read;
pub use series::Series;
pub use series_over::with_pairs;
pub use traffic::Traffic;
pub use writer::print;
