//! The text of certificates of both formats: reading, printing, and from the first format to the second.
#![tactic(auto)]

pub mod cursor;
mod fault;
pub mod grammar;
mod item;
mod limits;
mod printing;
pub mod reader;
mod reading;
pub mod spelling;
mod upgrading;

pub use fault::{CertFault, Stop};
pub use limits::{BlockLine, Counts};
pub use printing::print;
pub use reading::read;
pub use upgrading::upgrade;
