//! How a routing uses a link.
use routing::Routing;
use te_model::{DemandSet, Network};

/// A routing of a network, how it uses a link, and the matrices that are looked at.
#[derive(Clone, Copy)]
pub struct LinkUsage<'a> {
    pub net: &'a Network,
    pub routing: &'a Routing,
    pub set: &'a DemandSet,
    /// The share of each pair on the link, in millionths.
    pub shares: &'a [u64],
}
