//! The first row of a matrix file whose pair is none of some pairs.

ghost use Rattle.std.specs.Prelude.{◌≡◌, ◌*◌, ◌^◌, ◌+◌, ◌<◌, ◌≤◌, All, IfOk, IsTrue, List, Ok, false, length, not, slice_index_or};
ghost use Rattle.te_model.specs.declared.limits.TheConstants.{FORMAT_2};
ghost use Rattle.te_model.specs.Network.{is_well_formed, node_count};
ghost use Rattle.te_model.specs.Pairs.{IsNodePair};
ghost use Rattle.traffic_matrix.specs.declared.entry.Entry.{Entry};
ghost use Rattle.traffic_matrix.specs.declared.series.Series.{Series};
ghost use Rattle.traffic_matrix.specs.Outside.{first_row_outside, first_row_outside_in};
ghost use Rattle.traffic_matrix.specs.Pairs.{place_of_pair};
ghost use Rattle.traffic_matrix.specs.Rows.{demand_entry, entries_below, series_in};
ghost use Rattle.traffic_matrix.specs.Shows.{AreMarksOf};

use crate::entry::read_entry;
use crate::nodes::Nodes;
use crate::pair_union::{place_of, with_marks};
use csv_records::Rows;
use std::alloc::Global;
use te_model::{Memory, Network, Pair};

// Whether the row that was read last is of a pair without a mark.
fn is_unmarked(rows: &Rows<'_>, nodes: &Nodes, marks: &[bool], row: u64) -> bool
    requires nodes { length nodes.now ≤ FORMAT_2.nodes }
    requires count { length marks.now ≡ length nodes.now * length nodes.now }
    ensures { (e : Entry) → demand_entry nodes.now row rows.now.current ≡ Ok e →
        result ≡ not (slice_index_or marks.now (place_of_pair (length nodes.now) e.pair) false) }
{
    match read_entry(rows, nodes, row) {
        Ok(entry) => !marks[place_of(nodes.len(), entry.pair)],
        Err(_) => false,
    }
}

// The number of the first of the rows that are left whose pair has no mark, the next one having the number 1.
fn first_unmarked_row(
    rows: &mut Rows<'_>,
    nodes: &Nodes,
    marks: &[bool],
) -> Result<Option<u64>, Memory>
    requires nodes { length nodes.now ≤ FORMAT_2.nodes }
    requires count { length marks.now ≡ length nodes.now * length nodes.now }
    requires rows { length rows.old.rest + 1 < 2 ^ 64 }
    ensures { (pairs : List Pair) → AreMarksOf (length nodes.now) marks.now pairs → (entries : List Entry) →
        entries_below nodes.now rows.old.rest ≡ Ok entries → IfOk result (λ row. row ≡ first_row_outside pairs entries) }
{
    let mut row = 1u64;
    while rows.advance()? {
        if is_unmarked(rows, nodes, marks, row) {
            return Ok(Some(row));
        }
        row += 1;
    }
    Ok(None)
}

/// The number of the first row of a matrix file of the network whose pair is none of these, if there is one. The file has no fault.
/// `Memory` comes where memory is wanting.
pub fn first_row_outside(
    alloc: Global,
    net: &Network,
    pairs: &[Pair],
    bytes: &[u8],
) -> Result<Option<u64>, Memory>
    requires network { IsTrue (is_well_formed net.now) }
    requires pairs { All (IsNodePair (node_count net.now)) pairs.now }
    requires read { (series : Series) × (series_in net.now bytes.now ≡ Ok series) }
    ensures { IfOk result (λ row. row ≡ first_row_outside_in net.now pairs.now bytes.now) }
{
    let nodes = Nodes::new(alloc, net)?;
    let count = nodes.len();
    let none = vec![in alloc; false; count * count]?;
    let marks = with_marks(none, count, pairs);
    let mut rows = Rows::new(alloc, bytes);
    rows.advance()?;
    first_unmarked_row(&mut rows, &nodes, marks.as_slice())
}
