//! Whether blocks of certificates have the same numbers.
use te_model::{Block, Row};

// Whether the rows have the same sources and potentials.
fn are_same_rows(rows: &[Row], others: &[Row]) -> bool {
    if rows.len() != others.len() {
        return false;
    }
    for place in 0..rows.len() {
        let (row, other) = (&rows[place], &others[place]);
        if row.source != other.source || row.potential != other.potential {
            return false;
        }
    }
    true
}

/// Whether the blocks have the same numbers.
pub fn is_same_block(block: &Block, other: &Block) -> bool {
    let numbers = (block.link == other.link) & (block.a == other.a) & (block.b == other.b);
    let rows = are_same_rows(block.rows.as_slice(), other.rows.as_slice());
    let counters = (block.plus == other.plus) & (block.minus == other.minus);
    numbers & rows & counters & (block.weights == other.weights)
}
