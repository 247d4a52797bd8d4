//! Hoses, and the numbers that show a bound of one.
use te_model::Items;

/// Bounds on what each node sends and receives in total (the hose model; Duffield and others, 1999).
#[derive(Drop)]
pub struct Hose {
    /// What each node sends at most, in the unit of the demands.
    pub sent: Items<u64>,
    /// What each node receives at most, in the same unit.
    pub received: Items<u64>,
}

/// Numbers of a link, in millionths: the share of each pair on it is at most the number of its source as a tail and that of
/// its destination as a head.
#[derive(Drop)]
pub struct HoseBlock {
    pub link: u32,
    /// One number for each node, as a source.
    pub tails: Items<u64>,
    /// One number for each node, as a destination.
    pub heads: Items<u64>,
}

/// A hose, and what shows a bound of the utilisation by each matrix within it.
#[derive(Drop)]
pub struct HoseCert {
    pub hose: Hose,
    /// In millionths of the capacity.
    pub bound: u64,
    /// The blocks of those links that have one, ascending by link.
    pub blocks: Items<HoseBlock>,
}
