//! What a step is given.

use crate::preparation::Preparation;
use plan::Recovery;
use traffic_matrix::Traffic;

/// What a step is given besides the scheme and the network.
#[derive(Drop)]
pub struct StepInput<'a, P> {
    /// What was prepared for the network.
    pub prepared: &'a Preparation<P>,
    /// The matrices that are sent, and those that are predicted.
    pub traffic: &'a Traffic,
    /// For each link whether it has failed.
    pub failed: &'a [bool],
    /// How traffic goes on where links have failed.
    pub recovery: Recovery,
    /// The number of the step.
    pub step: u32,
}
