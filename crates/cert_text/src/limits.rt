//! What a head counts, and what the first line of a block says.

/// What the lines of a block are counted by.
#[derive(Clone, Copy)]
pub struct Counts {
    pub nodes: u64,
    pub links: u64,
    pub pairs: u64,
    /// Whether the demand set has bounds, so that each block has `plus` and `minus`.
    pub bounded: bool,
}

/// The first line of a block: its link, its `a` and `b`, and how many rows it has.
#[derive(Clone, Copy)]
pub struct BlockLine {
    pub link: u32,
    pub a: u64,
    pub b: u64,
    pub rows: u64,
}
