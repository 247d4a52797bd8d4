//! The routing of a certificate, simulated over a series of matrices.
//!
//! - `certificate_report`: the report of the routing over a series, with failures and a recovery.
//! - `reports_are_within_ratio`: each row of a matrix of the certificate's set is within its ratio of what any routing needs.
//! - `certificate_reports_exist`: there is a report.
#![tactic(auto)]

mod laws;
mod pairs;
mod report;

pub use laws::{certificate_reports_exist, reports_are_within_ratio};
pub use pairs::routed_pairs;
pub use report::certificate_report;
