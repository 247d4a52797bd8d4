//! A simulated step, and its row.

use flow_sim::StepResult;
use local_recovery::Recovered;

/// What became of the traffic of a step, and how far the links were used.
#[derive(Drop)]
pub struct StepRow {
    /// The number of the step, from 0.
    pub step: u32,
    /// What became of the demands of all declared pairs, in units of demand.
    pub result: StepResult,
    /// The greatest over the links of what they carried over their capacities, in millionths, rounded up; 0 without links.
    pub peak: u64,
    /// The greatest utilisation by the scheme's routing of the step, before any recovery, in millionths, rounded up.
    pub parts: u128,
    /// The lower bound of every routing's utilisation that the scheme noted, in millionths, if it has one.
    pub low: Option<u128>,
}

/// A simulated step: its row, and the paths that its demands took.
#[derive(Drop)]
pub struct SimulatedStep {
    /// The weighted paths of each declared pair after any recovery, by the numbers of the links of the whole network.
    pub rates: Recovered,
    /// The row of the step.
    pub row: StepRow,
}
