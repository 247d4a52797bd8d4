//! The rows of a best block.
ghost use Rattle.std.specs.Prelude.{◌≡◌, ◌<◌, ◌≤◌, IfOk, IfSome, IfNone, IsTrue, true, false, length};
ghost use Rattle.te_model.specs.declared.limits.TheConstants.{FORMAT_2};
ghost use Rattle.te_model.specs.Network.{is_well_formed, node_count};
ghost use Rattle.best_blocks.specs.Rows.{is_marked, distances_from, AreRowsFrom};
ghost use Rattle.best_blocks.specs.Potentials.{potentials_of, ArePotentialRows};

use shortest_path::potentials_by;
use std::alloc::Global;
use te_model::{Items, Memory, Network, Row};

/// The row of a node, by the distances from it.
fn row_of(alloc: Global, rows: &[Items<Option<u64>>], node: usize) -> Result<Row, Memory>
    requires inside { node < length rows.now }
    requires few { length rows.now ≤ FORMAT_2.nodes }
    ensures { IfOk result (λ r. r ≡ record { source = node; potential = potentials_of (distances_from rows.now node) }) }
{
    let potential = potentials_by(alloc, rows[node].as_slice())?;
    Ok(Row {
        source: node as u32,
        potential: Items::new(potential),
    })
}

/// The row of a node if it is marked.
fn row_if_marked(
    alloc: Global,
    rows: &[Items<Option<u64>>],
    marks: &[bool],
    node: usize,
) -> Result<Option<Row>, Memory>
    requires inside { node < length rows.now }
    requires few { length rows.now ≤ FORMAT_2.nodes }
    requires marks { length marks.now ≡ length rows.now }
    ensures some { IfOk result (λ o. IfSome o (λ r. (r ≡ record { source = node; potential = potentials_of (distances_from rows.now node) }) × (is_marked marks.now node ≡ true))) }
    ensures none { IfOk result (λ o. IfNone o (is_marked marks.now node ≡ false)) }
{
    if marks[node] {
        let row = row_of(alloc, rows, node)?;
        Ok(Some(row))
    } else {
        Ok(None)
    }
}

/// The potentials of exactly the marked nodes, ascending.
pub fn rows_of(
    alloc: Global,
    net: &Network,
    weights: &[u64],
    rows: &[Items<Option<u64>>],
    marks: &[bool],
) -> Result<Vec<Row>, Memory>
    requires network { IsTrue (is_well_formed net.now) }
    requires nodes { node_count net.now ≤ FORMAT_2.nodes }
    requires marks { length marks.now ≡ node_count net.now }
    requires rows { AreRowsFrom (node_count net.now) net.now weights.now marks.now rows.now }
    ensures { IfOk result (λ r. ArePotentialRows (node_count net.now) net.now weights.now marks.now r.items) }
{
    let mut potentials = Vec::new(alloc);
    for i in 0..marks.len() {
        match row_if_marked(alloc, rows, marks, i)? {
            Some(row) => potentials.push(row)?,
            None => {}
        }
    }
    Ok(potentials)
}
