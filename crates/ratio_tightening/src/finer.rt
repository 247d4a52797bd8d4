//! A block in finer form: the same need by numbers twice as great, so that less of them is lost where a best block is rounded.
ghost use Rattle.std.specs.Prelude.{◌≡◌, ◌^◌, ◌<◌, ◌≤◌, IfOk, IsTrue, false, length, map};
ghost use Rattle.ratio_tightening.specs.Finer.{has_small_a, twice_row, twice_within, with_twice_scale, IsDoubled, IsFinerForm, IsTwiceExcess};

use crate::copying::copy_of_block;
use std::alloc::Global;
use te_model::{Block, Items, Memory, Row, SHARE_UNIT};

/// The greatest number that has room to double.
const MAX_DOUBLED: u64 = 1 << 35;

// Twice the number, and at most 2^36.
fn twice_within(x: u64) -> u64
    ensures { result ≡ twice_within x }
{
    2 * x.min(MAX_DOUBLED)
}

// The same of each of the numbers.
fn twice_each(alloc: Global, numbers: &[u64]) -> Result<Vec<u64>, Memory>
    ensures { IfOk result (λ twice. twice.items ≡ map twice_within numbers.now) }
{
    let mut twice = Vec::with_capacity(alloc, numbers.len())?;
    for x in numbers {
        twice.push(twice_within(*x))?;
    }
    Ok(twice)
}

// Twice the potentials of the row.
fn twice_row(alloc: Global, row: &Row) -> Result<Row, Memory>
    ensures { IfOk result (λ twice. twice ≡ twice_row row.now) }
{
    let potential = twice_each(alloc, row.potential.as_slice())?;
    Ok(Row {
        source: row.source,
        potential: Items::new(potential),
    })
}

// The same of each of the rows.
fn twice_rows(alloc: Global, rows: &[Row]) -> Result<Vec<Row>, Memory>
    ensures { IfOk result (λ twice. twice.items ≡ map twice_row rows.now) }
{
    let mut twice = Vec::with_capacity(alloc, rows.len())?;
    for row in rows {
        twice.push(twice_row(alloc, row)?)?;
    }
    Ok(twice)
}

// Twice what each number is above the other of its pair.
fn twice_excess(alloc: Global, numbers: &[u64], others: &[u64]) -> Result<Vec<u64>, Memory>
    requires count { length others.now ≡ length numbers.now }
    ensures { IfOk result (λ twice. IsTwiceExcess numbers.now others.now twice.items) }
{
    let mut twice = Vec::with_capacity(alloc, numbers.len())?;
    for p in 0..numbers.len() {
        twice.push(twice_within(numbers[p].saturating_sub(others[p])))?;
    }
    Ok(twice)
}

// The block with twice the weights and `b`.
fn doubled(alloc: Global, block: &Block) -> Result<Block, Memory>
    requires count { length block.now.minus ≡ length block.now.plus }
    requires room { block.now.b < 2 ^ 35 }
    ensures { IfOk result (IsDoubled block.now) }
{
    let weights = twice_each(alloc, block.weights.as_slice())?;
    let rows = twice_rows(alloc, block.rows.as_slice())?;
    let plus = twice_excess(alloc, block.plus.as_slice(), block.minus.as_slice())?;
    let minus = twice_excess(alloc, block.minus.as_slice(), block.plus.as_slice())?;
    Ok(Block {
        link: block.link,
        a: block.a,
        b: 2 * block.b,
        weights: Items::new(weights),
        rows: Items::new(rows),
        plus: Items::new(plus),
        minus: Items::new(minus),
    })
}

// The block with twice `a` and `b`.
fn with_twice_scale(alloc: Global, block: &Block) -> Result<Block, Memory>
    requires a { block.now.a ≤ 2 ^ 36 }
    requires room { block.now.b < 2 ^ 35 }
    ensures { IfOk result (λ twice. twice ≡ with_twice_scale block.now) }
{
    let mut twice = copy_of_block(alloc, block)?;
    twice.a = 2 * twice.a;
    twice.b = 2 * twice.b;
    Ok(twice)
}

// Whether there are numbers of what is added, and `a` is below one million.
fn has_small_a(block: &Block) -> bool
    ensures { result ≡ has_small_a block.now }
{
    block.plus.as_slice().len() > 0 && block.a < SHARE_UNIT
}

/// The block in finer form.
pub fn finer_block(alloc: Global, block: &Block) -> Result<Block, Memory>
    requires count { length block.now.minus ≡ length block.now.plus }
    requires a { block.now.a ≤ 2 ^ 36 }
    requires room { block.now.b < 2 ^ 35 }
    ensures { IfOk result (IsFinerForm block.now) }
{
    if has_small_a(block) {
        with_twice_scale(alloc, block)
    } else {
        doubled(alloc, block)
    }
}
