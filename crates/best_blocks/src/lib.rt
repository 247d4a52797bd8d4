//! Best blocks of the links of a network, and what they need (after Applegate and Cohen, 2003).
//!
//! - `need`: how great a ratio a block needs. `need_by`: how great a ratio weights need, without a block.
//! - `scale`: the best block of a link for given weights.
//! - `SharedLink`, `Metric`: what a link has of shares and what weights make of distances, for many weights of one link.
//!   `scale_under` gives the best scale of the weights, `best_block` their block.
#![tactic(auto)]

mod balance;
mod block;
mod capacity;
mod law;
mod metric;
mod potentials;
mod quotient;
mod rows;
mod scaling;
mod sharing;

pub use block::{best_block, scale};
pub use capacity::{greatest_need, need, need_by};
pub use law::best_blocks_exist;
pub use metric::{Metric, metric_after, metric_of, metric_with};
pub use quotient::dearest_pair;
pub use scaling::{Scale, scale_under};
pub use sharing::{SharedLink, link_with_shares, shared_link};
