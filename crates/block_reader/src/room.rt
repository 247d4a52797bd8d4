//! Room for a block, which is read again and again without memory.
ghost use Rattle.std.specs.Prelude.{◌≡◌, ◌≢◌, ◌≤◌, ◌<◌, ◌+◌, ◌^◌, ℕ, [], length, vec_len, slice_index_or, IfOk};
ghost use Rattle.block_reader.specs.Room.{HasWidth, IsShelf, sides_of};

use cert_text::Counts;
use std::alloc::{AllocError, Global};
use std::mem;
use te_model::{Block, Items, Limits, Row};

/// A block, and lists of rows of every length that it may have: its rows are lent by the list of their length.
#[derive(Drop)]
pub(crate) struct Room {
    pub(crate) block: Block,
    pub(crate) spare: Row,
    pub(crate) limits: Limits,
    pub(crate) counts: Counts,
    shelves: Vec<Items<Row>>,
    lent: usize,
    ghost some: { 1 ≤ counts.links },
    ghost weights: { length block.weights ≡ counts.links },
    ghost plus: { length block.plus ≡ sides_of counts.bounded counts.pairs },
    ghost minus: { length block.minus ≡ sides_of counts.bounded counts.pairs },
    ghost width: { HasWidth counts.nodes spare },
    ghost rows: { IsShelf lent counts.nodes block.rows },
    ghost inside: { lent < vec_len shelves },
    ghost all: { vec_len shelves ≡ limits.nodes + 1 },
    ghost lengths: { (k : ℕ) → k < vec_len shelves → k ≢ lent → IsShelf k counts.nodes (slice_index_or shelves.items k []) },
}

// So many zeros.
fn zeros(alloc: Global, count: u64) -> Result<Items<u64>, AllocError>
    requires { count < 2 ^ 32 }
    ensures { IfOk result (λ list. length list ≡ count) }
{
    Ok(Items::new(vec![in alloc; 0; count as usize]?))
}

// A row of zeros.
fn empty_row(alloc: Global, nodes: u64) -> Result<Row, AllocError>
    requires { nodes < 2 ^ 32 }
    ensures { IfOk result (HasWidth nodes) }
{
    Ok(Row {
        source: 0,
        potential: zeros(alloc, nodes)?,
    })
}

// So many rows of zeros.
fn shelf(alloc: Global, count: usize, nodes: u64) -> Result<Items<Row>, AllocError>
    requires { nodes < 2 ^ 32 }
    ensures { IfOk result (IsShelf count nodes) }
{
    let mut list = Vec::with_capacity(alloc, count)?;
    for _ in 0..count {
        let row = empty_row(alloc, nodes)?;
        list.push(row)?;
    }
    Ok(Items::new(list))
}

// Lists of each length up to this one.
fn shelves(alloc: Global, most: u64, nodes: u64) -> Result<Vec<Items<Row>>, AllocError>
    requires most { most < 2 ^ 32 }
    requires nodes { nodes < 2 ^ 32 }
    ensures count { IfOk result (λ list. vec_len list ≡ most + 1) }
    ensures shelves { IfOk result (λ list. (k : ℕ) → k < vec_len list → IsShelf k nodes (slice_index_or list.items k [])) }
{
    let mut shelves = Vec::with_capacity(alloc, most as usize + 1)?;
    for count in 0..most as usize + 1 {
        let rows = shelf(alloc, count, nodes)?;
        shelves.push(rows)?;
    }
    Ok(shelves)
}

// A block of zeros without rows.
fn empty_block(alloc: Global, counts: &Counts) -> Result<Block, AllocError>
    requires links { counts.now.links < 2 ^ 32 }
    requires pairs { counts.now.pairs < 2 ^ 32 }
    ensures weights { IfOk result (λ block. length block.weights ≡ counts.now.links) }
    ensures rows { IfOk result (λ block. block.rows ≡ []) }
    ensures plus { IfOk result (λ block. length block.plus ≡ sides_of counts.now.bounded counts.now.pairs) }
    ensures minus { IfOk result (λ block. length block.minus ≡ sides_of counts.now.bounded counts.now.pairs) }
{
    let sides = if counts.bounded { counts.pairs } else { 0 };
    Ok(Block {
        link: 0,
        a: 0,
        b: 0,
        weights: zeros(alloc, counts.links)?,
        plus: zeros(alloc, sides)?,
        minus: zeros(alloc, sides)?,
        rows: Items::new(Vec::new(alloc)),
    })
}

impl Room {
    /// Room for the blocks of a head with these counts. `AllocError` where memory is short.
    pub(crate) fn new(alloc: Global, limits: &Limits, counts: &Counts) -> Result<Room, AllocError>
        requires some { 1 ≤ counts.now.links }
        requires most { limits.now.nodes < 2 ^ 32 }
        requires nodes { counts.now.nodes < 2 ^ 32 }
        requires links { counts.now.links < 2 ^ 32 }
        requires pairs { counts.now.pairs < 2 ^ 32 }
        ensures limits { IfOk result (λ room. room.limits ≡ limits.now) }
        ensures counts { IfOk result (λ room. room.counts ≡ counts.now) }
    {
        Ok(Room {
            spare: empty_row(alloc, counts.nodes)?,
            shelves: shelves(alloc, limits.nodes, counts.nodes)?,
            block: empty_block(alloc, counts)?,
            limits: *limits,
            counts: *counts,
            lent: 0,
        })
    }

    /// Gives the block so many rows, which hold anything.
    pub(crate) fn lend(&mut self, count: usize)
        requires { count ≤ self.old.limits.nodes }
        ensures rows { length self.new.block.rows ≡ count }
        ensures limits { self.new.limits ≡ self.old.limits }
        ensures counts { self.new.counts ≡ self.old.counts }
        ensures link { self.new.block.link ≡ self.old.block.link }
        ensures a { self.new.block.a ≡ self.old.block.a }
        ensures b { self.new.block.b ≡ self.old.block.b }
        ensures weights { self.new.block.weights ≡ self.old.block.weights }
    {
        mem::swap(&mut self.block.rows, &mut self.shelves[self.lent]);
        mem::swap(&mut self.block.rows, &mut self.shelves[count]);
        self.lent = count;
    }
}
