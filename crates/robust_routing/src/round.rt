//! What a sweep goes over, and by what.
use crate::sweep::Sweep;
use te_model::{Network, Pair};

/// What stands for a node that is not there.
pub const NO_NODE: u32 = u32::MAX;

/// A network with its pairs, and the sweep that goes over them.
#[derive(Clone, Copy)]
pub struct Round<'a> {
    pub net: &'a Network,
    pub pairs: &'a [Pair],
    pub sweep: Sweep,
}
