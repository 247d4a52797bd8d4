//! Moves of weight between two paths of a pair.

use te_model::Items;

/// How much a move takes at most, in millionths of the pair's demand: the greatest first, since fewer
/// moves are needed then.
pub const SIZES: [u64; 3] = [1_000_000, 100_000, 10_000];

/// To which path a move goes, and how much it takes at most.
#[derive(Clone, Copy)]
pub struct Target {
    /// The place among the candidates of the pair.
    pub candidate: usize,
    /// In millionths of the pair's demand.
    pub size: u64,
}

/// A move of weight from a path of a pair to a candidate of the pair.
#[derive(Clone, Copy)]
pub struct Move {
    pub pair: usize,
    /// The place among the paths of the pair.
    pub from: usize,
    pub target: Target,
}

/// What a move is to reach: no link is to carry more than `times` its capacity.
#[derive(Drop)]
pub struct Aim {
    /// A link that carries more.
    pub link: u32,
    pub times: u128,
    /// Each link that carries more.
    pub above: Items<u32>,
}
