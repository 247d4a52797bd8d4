//! Reading a topology.

ghost use Rattle.std.specs.Prelude.{◌≡◌, ◌≢◌, ◌≤◌, ◌∷◌, OnOk, IfErr, Ok, Err, IfOk, IsTrue};
ghost use Rattle.te_model.specs.Network.{is_well_formed, link_count};
ghost use Rattle.csv_records.specs.Rows.{and_then, fold_rows, fold_table};
ghost use Rattle.topology.specs.declared.fault.TopologyFault.TheVariants as fault;
ghost use Rattle.topology.specs.Topology.{topology_of, closed_network, with_link_row, is_topology_header, no_links};

use crate::draft::Draft;
use crate::entry::read_entry;
use crate::fault::TopologyFault;
use csv_records::Rows;
use std::alloc::Global;
use te_model::Network;

/// Reads a topology: the header `source,target,capacity,cost`, and then a row for each link.
///
/// Nodes are numbered in the order of their first appearance, the source of a row before its target, and links
/// in the order of the rows. A repeated row is a parallel link. The network is well formed and has a link.
///
/// An error is the fault of the first offending row, by the order of [`TopologyFault`]; `Header` stands before
/// all of them, and `Empty` comes where there is no row.
pub fn read(alloc: Global, bytes: &[u8]) -> Result<Network, TopologyFault>
    ensures network { IfOk result (λ net. topology_of bytes.now ≡ Ok net) }
    ensures well_formed { IfOk result (λ net. IsTrue (is_well_formed net)) }
    ensures links { IfOk result (λ net. 1 ≤ link_count net) }
    ensures refused { IfErr result (λ e. e ≢ fault.Memory → topology_of bytes.now ≡ Err e) }
{
    let mut rows = Rows::new(alloc, bytes);
    read_table(alloc, &mut rows)
}

// Reads the header and the rows, of which none has been read.
fn read_table(alloc: Global, rows: &mut Rows<'_>) -> Result<Network, TopologyFault>
    ensures network { IfOk result (λ net. and_then closed_network (fold_table is_topology_header fault.Header with_link_row no_links rows.old.rest) ≡ Ok net) }
    ensures refused { IfErr result (λ e. e ≢ fault.Memory →
        and_then closed_network (fold_table is_topology_header fault.Header with_link_row no_links rows.old.rest) ≡ Err e) }
{
    read_header(rows)?;
    let mut draft = Draft::new(alloc);
    read_links(alloc, rows, &mut draft)?;
    draft.close(alloc)
}

// Reads the first record, which is the header.
fn read_header(rows: &mut Rows<'_>) -> Result<(), TopologyFault>
    ensures first { OnOk result (rows.old.rest ≡ rows.new.current ∷ rows.new.rest) }
    ensures header { OnOk result (IsTrue (is_topology_header rows.new.current)) }
    ensures refused { IfErr result (λ e. e ≢ fault.Memory → fold_table is_topology_header fault.Header with_link_row no_links rows.old.rest ≡ Err e) }
{
    if !rows.advance()? || !has_header(rows) {
        return Err(TopologyFault::Header);
    }
    Ok(())
}

// Whether the record that was read last is the header.
fn has_header(rows: &Rows<'_>) -> bool
    ensures { result ≡ is_topology_header rows.now.current }
{
    match rows.four_fields() {
        Some((source, target, capacity, cost)) => {
            source == b"source".as_slice()
                && target == b"target".as_slice()
                && capacity == b"capacity".as_slice()
                && cost == b"cost".as_slice()
        }
        None => false,
    }
}

// Reads the rows that are left, a link from each, into a draft that has none yet.
fn read_links(alloc: Global, rows: &mut Rows<'_>, draft: &mut Draft) -> Result<(), TopologyFault>
    requires { draft.old ≡ no_links }
    ensures links { OnOk result (fold_rows with_link_row no_links 1 rows.old.rest ≡ Ok draft.new) }
    ensures refused { IfErr result (λ e. e ≢ fault.Memory → fold_rows with_link_row no_links 1 rows.old.rest ≡ Err e) }
{
    let mut row = 1u64;
    'links: while rows.advance()? {
        let entry = read_entry(rows, row)?;
        draft.add_link(alloc, entry, row)?;
        row += 1;
    }
    Ok(())
}
