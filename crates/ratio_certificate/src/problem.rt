//! What a certificate is made for.
use best_blocks::Metric;
use routing::Routing;
use te_model::{DemandSet, Network};

/// A network, a routing of it, and the demand matrices for which a certificate is to hold.
#[derive(Clone, Copy)]
pub struct Problem<'a> {
    pub net: &'a Network,
    pub routing: &'a Routing,
    pub set: &'a DemandSet,
    /// The metric of the starting weights, with a row for each node.
    pub first: &'a Metric,
    /// Whether the weights that are offered for a link may be near its best ones.
    pub near_offers: bool,
}
