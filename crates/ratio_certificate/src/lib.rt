//! Certificates of the oblivious ratio of a routing: how they are made (after Applegate and Cohen, 2003).
//!
//! - `need`: how great a ratio a block needs.
//! - `scale`: the best block of a link for given weights.
//! - `make`: a certificate of a routing, of the best of sixteen rounds for each link, searched where it needs most, and polished.
//!   `improve`: the same from weights that are offered for its blocks, by a shorter search where these may be near the best.
//! - `is_fine`: whether the weights of a block are fine, so that they are not doubled.
//! - `better_block`: the best block of a given block's weights with one of them changed, where it needs less by a 64th.
#![tactic(auto)]

mod better;
mod changes;
mod critical;
mod effort;
mod fine;
mod form;
mod law;
mod making;
mod offers;
mod polish;
mod problem;
mod raising;
mod response;
mod restricted;
mod rounds;
mod search;
mod seek;
mod weighting;

pub use best_blocks::{need, scale};
pub use better::better_block;
pub use fine::is_fine;
pub use law::{bounded_blocks_need_little_more, made_certificates_exist};
pub use making::{improve, make};
pub use offers::Offer;
