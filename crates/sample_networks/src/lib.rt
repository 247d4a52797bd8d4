//! Small networks, and pairs, paths and demands: what several crates of tests begin with, and how they compare the routes that they
//! find.
#![tactic(auto)]

pub mod answers;
pub mod literals;
pub mod networks;

pub use answers::{are_paths, are_routes};
pub use literals::{WeightedPath, matrix, network, pairs, weighted_paths, weighted_routes};
pub use networks::{
    four_nodes, one_way, parallel_links, straight_routes, three_nodes, three_ways, two_nodes,
};
