//! Hose bounds: their files, judging hose certificates of a routing, and making them; and what commands answer of them.
#![tactic(auto)]

mod answers;
mod blocks;
mod covers;
mod fault;
mod hose;
pub mod laws;
mod maker;
mod pairs;
mod reader;
mod rules;
pub mod spelling;
mod sums;
mod verdict;
mod writer;

pub use answers::{check_hose_text, hose_text};
pub use fault::HoseFault;
pub use hose::{Hose, HoseBlock, HoseCert};
pub use maker::make;
pub use reader::{read, read_bounds};
pub use rules::{hose_cert_fault, hose_fault};
pub use verdict::{HoseVerdict, judge};
pub use writer::print;
