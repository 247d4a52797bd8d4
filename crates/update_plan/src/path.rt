//! Plans of updates, and their paths.
use te_model::Items;

/// The greatest number of steps of a plan.
pub const MAX_STEPS: u32 = 1000;

/// A path of a pair, and how much of the pair's demand it carries before and after an update.
#[derive(Drop)]
pub struct UpdatePath {
    /// The number of the pair.
    pub pair: u32,
    /// In millionths of the demand; 0 where the routing before has no such path.
    pub before: u64,
    /// In millionths of the demand; 0 where the routing after has no such path.
    pub after: u64,
    /// Link numbers, from the source to the destination.
    pub links: Items<u32>,
}

/// An update in steps. After step j a path has the weight `(steps - j) * before + j * after`, and those of a pair sum to
/// `steps` times one million.
#[derive(Drop)]
pub struct UpdatePlan {
    /// 1 to 1000.
    pub steps: u32,
    /// The paths of pair 0, then of pair 1, and so on, those of a pair in the order of their lists of links.
    pub paths: Items<UpdatePath>,
}
