//! Path routings: the weighted paths of each declared pair, and what they put on the links.
//!
//! - `Routing`: its shares, its loads (of one link, or of all in one pass) and greatest utilisation.
//! - `Shares`: for each link the pairs that have a share on it.
//! - `have_pairs`: whether routes are of given pairs.
//! - `merge`: equal paths taken together. `normalize`: weights scaled to the unit.
//! - `even_mix`: the unit in even parts over paths, equal ones taken together.
//! - `cut_loops`, `cut_loops_into`: a walk without its loops.
//! - `decompose`: a flow taken apart into weighted paths.
#![tactic(auto)]

mod copy;
mod decomposition;
mod even;
mod law;
mod loads;
mod loops;
mod merging;
mod normal;
mod order;
mod pairs;
mod routes;
mod shares;

pub use decomposition::decompose;
pub use even::even_mix;
pub use law::{
    cuts_exist, decompositions_exist, even_mixes_exist, merges_exist, routing_shares_are_flows,
    sums_over_shares,
};
pub use loops::{cut_loops, cut_loops_into};
pub use merging::merge;
pub use normal::normalize;
pub use order::is_list_below;
pub use pairs::have_pairs;
pub use routes::Routing;
pub use shares::{PairShare, Shares};
