//! The distances by the weights of a link: a row for each node, with those of all nodes from it.
ghost use Rattle.std.specs.Prelude.{◌≡◌, ◌<◌, IfOk, IsTrue, OnOk};
ghost use Rattle.te_model.specs.Network.{is_well_formed, node_count};
ghost use Rattle.shortest_path.specs.declared.rows.Direction.TheVariants.{Forward};
ghost use Rattle.shortest_path.specs.Rows.{IsSearchGraph};
ghost use Rattle.robust_routing.specs.Rows.{AreRows, IsRowWritten};
ghost use Rattle.robust_routing.specs.Weights.{AreLinkWeights};

use shortest_path::Searches;
use std::alloc::Global;
use te_model::{Items, Memory, Network};

/// A row without a distance for each node. `Memory` comes where memory is wanting.
pub fn first_rows(alloc: Global, net: &Network) -> Result<Vec<Items<Option<u64>>>, Memory>
    ensures { IfOk result (λ r. AreRows net.now r.items) }
{
    let nodes = net.names.as_slice().len();
    let mut rows = Vec::with_capacity(alloc, nodes)?;
    for _ in 0..nodes {
        let row = vec![in alloc; None; nodes]?;
        rows.push(Items::new(row))?;
    }
    Ok(rows)
}

/// Writes the row of the node. The searches are along links. `Memory` comes where memory is wanting.
pub fn write_row(
    alloc: Global,
    net: &Network,
    searches: &mut Searches,
    weights: &[u64],
    from: u32,
    rows: &mut [Items<Option<u64>>],
) -> Result<(), Memory>
    requires network { IsTrue (is_well_formed net.now) }
    requires along { IsSearchGraph net.now Forward searches.old }
    requires weights { AreLinkWeights net.now weights.now }
    requires from { from < node_count net.now }
    requires rows { AreRows net.now rows.old }
    ensures rows { OnOk result (AreRows net.now rows.new) }
    ensures row { OnOk result (IsRowWritten net.now weights.now from rows.old rows.new) }
    ensures same { searches.new ≡ searches.old }
{
    let mut row = vec![in alloc; None; rows.len()]?;
    searches.distances(net, weights, from, &mut row);
    rows[from as usize] = Items::new(row);
    Ok(())
}

/// The distance of the node in the row, and 0 where it has none.
pub fn distance_in(row: &[Option<u64>], node: u32) -> u64 {
    let place = node as usize;
    if place < row.len() {
        row[place].unwrap_or(0)
    } else {
        0
    }
}
