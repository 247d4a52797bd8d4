//! Copies of blocks.
ghost use Rattle.std.specs.Prelude.{◌≡◌, IfOk};

use std::alloc::Global;
use te_model::{Block, Items, Memory, Row};

// A copy of the rows.
fn copy_of_rows(alloc: Global, rows: &[Row]) -> Result<Vec<Row>, Memory>
    ensures { IfOk result (λ copy. copy.items ≡ rows.now) }
{
    let mut copy = Vec::with_capacity(alloc, rows.len())?;
    for row in rows {
        let potential = Vec::from_slice(alloc, row.potential.as_slice())?;
        copy.push(Row {
            source: row.source,
            potential: Items::new(potential),
        })?;
    }
    Ok(copy)
}

/// A copy of the block.
pub fn copy_of_block(alloc: Global, block: &Block) -> Result<Block, Memory>
    ensures { IfOk result (λ copy. copy ≡ block.now) }
{
    let weights = Vec::from_slice(alloc, block.weights.as_slice())?;
    let rows = copy_of_rows(alloc, block.rows.as_slice())?;
    let plus = Vec::from_slice(alloc, block.plus.as_slice())?;
    let minus = Vec::from_slice(alloc, block.minus.as_slice())?;
    Ok(Block {
        link: block.link,
        a: block.a,
        b: block.b,
        weights: Items::new(weights),
        rows: Items::new(rows),
        plus: Items::new(plus),
        minus: Items::new(minus),
    })
}
