//! A certificate of the same routing and set with a lower ratio (after Applegate and Cohen, 2003).
//!
//! - `tighten`: for each link with a share the block of the certificate, or one that needs no more, and those that need most polished.
//! - `laws`: what is known of such certificates beyond any one call.
#![tactic(auto)]

mod copying;
mod finer;
pub mod laws;
mod lesser;
mod offering;
mod polishing;
mod tightening;

pub use tightening::tighten;
