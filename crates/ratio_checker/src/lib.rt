//! The verdict on a certificate of an oblivious ratio: whether the inequalities that it states hold of every link.
#![tactic(auto)]

mod block_feed;
pub mod blocks;
mod bounds;
mod capacity;
pub mod feed;
pub mod finding;
pub mod link_pairs;
pub mod link_shares;
mod potentials;
mod rows;
pub mod share_rows;
pub mod share_table;
mod shares;

pub use block_feed::BlockFeed;
pub use feed::Feed;
pub use finding::{Finding, verdict};
pub use link_shares::shares_by_link;
