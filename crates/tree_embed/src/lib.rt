//! Decomposition trees of a network, and the paths that they lead over (Bartal, 1996; Fakcharoenphol,
//! Rao and Talwar, 2004; Räcke, 2008).
//!
//! - `embed`: the tree of a network with lengths, an order of its nodes, and a scale.
//! - `Tree`: the center of a node at a level, and the path from one node to another over centers.
#![tactic(auto)]

mod centers;
mod chain;
mod embedding;
mod first_links;
mod join;
mod law;
mod sums;

pub use centers::TOP_LEVEL;
pub use embedding::{Tree, embed};
pub use law::{levels_end_at_36, tree_paths_are_unique, tree_paths_exist};
