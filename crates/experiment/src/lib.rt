//! Experiments: what a plan asks for, published with a certificate or compared in a report.
//!
//! - `read_plan`: the plan of an experiment (crate `plan`).
//! - `drive`: a scheme over a series of matrices, one `StepRow` for each step (crate `series_simulation`).
//! - `publish`: a certificate of an oblivious scheme's routing.
//! - `certificate_file`: the file of the certificate that a plan publishes.
//! - `report`: the report of a plan's schemes over the traffic.
//! - `report_header`, `add_row`, `print_total`, `Figures`: the lines of a report. `fields`: the fields of a line.
//! - `published_files_are_accepted`: what every published file is.
//! - `publications_exist`, `reports_exist`: what a plan asks for exists.
//! - `predictions_change_no_oblivious`: the rows of an oblivious scheme are those without predictions.
//! - `adapted_is_no_greater_than_scaled`: rates that `smore` chooses anew are no worse than those of its fixed paths, scaled.
#![tactic(auto)]

mod demand_set;
mod driving;
mod envelope;
pub mod fields;
mod figures;
mod laws;
mod lines;
mod published_file;
mod publishing;
mod report_input;
mod reporting;
mod robust_publishing;
mod scheme_texts;

pub use figures::Figures;
pub use laws::{
    adapted_is_no_greater_than_scaled, predictions_change_no_oblivious, publications_exist,
    published_files_are_accepted, reports_exist,
};
pub use lines::{add_row, print_total, report_header};
pub use plan::{Experiment, Key, PlanFault, Recovery, SchemeName, read_plan};
pub use published_file::certificate_file;
pub use publishing::publish;
pub use reporting::report;
pub use series_simulation::{StepRow, drive};
