//! What stands of a routing where links have failed.
//!
//! - `recover`: the routing as it is, without the paths that failed, or led round the failed links.
//! - `Recovered`: the rates that are left, and `spread` to put them over more pairs.
//! - `recoveries_exist`, `spreads_exist`: what is left of a routing exists, and so do rates over more pairs.
#![tactic(auto)]

mod bypass;
mod bypass_path;
mod law;
mod marks;
mod mode;
mod rates;
mod recovery;
mod rescale;

pub use law::{recoveries_exist, spreads_exist};
pub use mode::Mode;
pub use rates::Recovered;
pub use recovery::recover;
