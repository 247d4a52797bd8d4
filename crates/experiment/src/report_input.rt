//! What a report is made from.

use failure::Failures;
use plan::Experiment;
use te_model::Network;
use traffic_matrix::Traffic;

/// A plan, the network and the traffic that it names, and the links that fail.
#[derive(Clone, Copy)]
pub struct ReportInput<'a> {
    pub plan: &'a Experiment,
    pub network: &'a Network,
    pub traffic: &'a Traffic,
    pub failures: &'a Failures,
}
