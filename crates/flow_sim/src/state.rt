//! How a step stands before a round.

/// How a step stands before a round: a number for each flow, in order of pair and path, and for each link.
#[derive(Drop)]
pub struct State {
    /// The units that each flow still has.
    pub units: Vec<u64>,
    /// What each flow lost on links that were full.
    pub lost_full: Vec<u64>,
    /// What each flow lost on links that had failed.
    pub lost_failed: Vec<u64>,
    /// What each link can still serve in this step.
    pub left: Vec<u64>,
}
