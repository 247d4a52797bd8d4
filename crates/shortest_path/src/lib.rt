//! Least sums of lengths in networks, and least paths, by passes over the nodes (Bellman, 1958), and where these would be many by
//! Dijkstra's algorithm (1959).
//!
//! - `distances` and `potentials`: the least sums from one node.
//! - `least_path`: the least path between two nodes by the sum of lengths, then by the list of links.
//! - `costs`: the costs of the links as lengths.
//! - `length_along`, `is_sum`: sums of lengths along given links.
//! - `toward`, `follow` and `least_walk`: the same where only some links are open. `first_links` and `walk_along` are the
//!   two parts of `follow`, for many walks to one node.
//! - `Searches`: many searches in one network. `Ways`: the least ways by cost from each node to one.
#![tactic(auto)]

mod cost;
mod distance;
mod law;
mod length;
mod node_order;
mod passes;
mod path;
mod row;
mod rows;
mod searches;
mod settle;
mod walk;
mod ways;

pub use cost::costs;
pub use distance::{distances, potentials, potentials_by};
pub use law::{
    distances_are_one, distances_double, distances_exist, distances_stay, least_paths_are_one,
    least_paths_exist, least_walks_exist, potentials_exist,
};
pub use length::{is_sum, length_along};
pub use path::least_path;
pub use rows::Direction;
pub use searches::Searches;
pub use walk::{first_links, follow, least_walk, toward, walk_along};
pub use ways::{Ways, way_from, ways_to};
