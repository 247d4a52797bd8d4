//! Brackets of the utilisation that a traffic matrix needs: from below by lengths of the links (the dual bound of Garg and
//! Könemann, 2007), from above by a routing.
//!
//! - `bracket`: no routing of the matrix has a smaller utilisation.
//! - `bracket_on_paths`: no split of the matrix over given paths has one.
#![tactic(auto)]

mod choice;
mod dual;
mod every_routing;
mod given_paths;
mod law;
mod rows;

pub use every_routing::bracket;
pub use given_paths::bracket_on_paths;
pub use law::{brackets_exist, brackets_on_paths_exist};
