//! Reading a matrix file.

ghost use Rattle.std.specs.Prelude.{◌≡◌, ◌≢◌, ◌+◌, ◌^◌, ◌<◌, ◌≤◌, IfErr, IfOk, IsTrue, List, OnOk, drop, length, false, Ok, Err};
ghost use Rattle.te_model.specs.declared.limits.TheConstants.{FORMAT_2};
ghost use Rattle.te_model.specs.Network.{is_well_formed, node_count};
ghost use Rattle.traffic_matrix.specs.declared.entry.Entry.{Entry};
ghost use Rattle.traffic_matrix.specs.declared.fault.MatrixFault.TheVariants as fault;
ghost use Rattle.traffic_matrix.specs.Rows.{begins_with_header, entries_below, entries_in, entries_of, is_matrix_header, series_in, with_demand_row};
ghost use Rattle.traffic_matrix.specs.Limits.{IsSeries};
ghost use Rattle.traffic_matrix.specs.Shows.{Shows};

use crate::demands::Demands;
use crate::entry::read_entry;
use crate::fault::MatrixFault;
use crate::nodes::Nodes;
use crate::series::Series;
use csv_records::Rows;
use std::alloc::Global;
use te_model::Network;

/// Reads a series of matrices of a network: the header `step,source,target,demand`, and then a row for each demand,
/// the steps ascending.
///
/// The declared pairs are those that stand in some row. There are as many steps as the greatest step plus one, and
/// none without rows. A pair without a row in a step demands nothing there.
///
/// An error is the fault of the first offending row, by the order of [`MatrixFault`]; `Header` stands before all of them.
pub fn read(alloc: Global, net: &Network, bytes: &[u8]) -> Result<Series, MatrixFault>
    requires { IsTrue (is_well_formed net.now) }
    ensures series { IfOk result (λ s. series_in net.now bytes.now ≡ Ok s) }
    ensures in_range { IfOk result (IsSeries (node_count net.now)) }
    ensures refused { IfErr result (λ e. e ≢ fault.Memory → series_in net.now bytes.now ≡ Err e) }
{
    let demands = read_demands(alloc, net, bytes)?;
    Ok(demands.series(alloc)?)
}

// Reads the demands of all rows.
fn read_demands(alloc: Global, net: &Network, bytes: &[u8]) -> Result<Demands, MatrixFault>
    requires { IsTrue (is_well_formed net.now) }
    ensures nodes { IfOk result (λ d. d.table.nodes ≡ node_count net.now) }
    ensures entries { IfOk result (λ d. (entries : List Entry) × (entries_in net.now bytes.now ≡ Ok entries) × Shows entries d) }
    ensures refused { IfErr result (λ e. e ≢ fault.Memory → entries_in net.now bytes.now ≡ Err e) }
{
    let mut rows = Rows::new(alloc, bytes);
    read_table(alloc, net, &mut rows)
}

// Reads a table: the header, and the rows below it.
fn read_table(alloc: Global, net: &Network, rows: &mut Rows<'_>) -> Result<Demands, MatrixFault>
    requires network { IsTrue (is_well_formed net.now) }
    requires few { length rows.old.rest < 2 ^ 64 }
    ensures nodes { IfOk result (λ d. d.table.nodes ≡ node_count net.now) }
    ensures entries { IfOk result (λ d. (entries : List Entry) × (entries_of net.now.names rows.old.rest ≡ Ok entries) × Shows entries d) }
    ensures refused { IfErr result (λ e. e ≢ fault.Memory → entries_of net.now.names rows.old.rest ≡ Err e) }
{
    read_header(rows)?;
    let nodes = Nodes::new(alloc, net)?;
    read_rows(alloc, rows, &nodes)
}

// Reads the first record, which has to be the header.
fn read_header(rows: &mut Rows<'_>) -> Result<(), MatrixFault>
    ensures header { OnOk result (IsTrue (begins_with_header rows.old.rest)) }
    ensures rest { OnOk result (rows.new.rest ≡ drop 1 rows.old.rest) }
    ensures refused { IfErr result (λ e. e ≢ fault.Memory → (e ≡ fault.Header) × (begins_with_header rows.old.rest ≡ false)) }
{
    if rows.advance()? && has_header(rows) {
        Ok(())
    } else {
        Err(MatrixFault::Header)
    }
}

// Whether the record that was read last is the header.
fn has_header(rows: &Rows<'_>) -> bool
    ensures { result ≡ is_matrix_header rows.now.current }
{
    match rows.four_fields() {
        Some((step, source, target, demand)) => {
            step == b"step".as_slice()
                && source == b"source".as_slice()
                && target == b"target".as_slice()
                && demand == b"demand".as_slice()
        }
        None => false,
    }
}

// Reads the rows that are left, which are those below the header, up to the first fault.
fn read_rows(alloc: Global, rows: &mut Rows<'_>, nodes: &Nodes) -> Result<Demands, MatrixFault>
    requires nodes { length nodes.now ≤ FORMAT_2.nodes }
    requires rows { length rows.old.rest + 1 < 2 ^ 64 }
    ensures nodes { IfOk result (λ d. d.table.nodes ≡ length nodes.now) }
    ensures entries { IfOk result (λ d. (entries : List Entry) × (entries_below nodes.now rows.old.rest ≡ Ok entries) × Shows entries d) }
    ensures refused { IfErr result (λ e. e ≢ fault.Memory → entries_below nodes.now rows.old.rest ≡ Err e) }
{
    let mut demands = Demands::new(alloc, nodes.len())?;
    let mut row = 1u64;
    while rows.advance()? {
        read_row(alloc, rows, nodes, &mut demands, row)?;
        row += 1;
    }
    Ok(demands)
}

// Adds the row that was read last to the demands of the rows before it.
fn read_row(
    alloc: Global,
    rows: &Rows<'_>,
    nodes: &Nodes,
    demands: &mut Demands,
    row: u64,
) -> Result<(), MatrixFault>
    requires few { length nodes.now ≤ FORMAT_2.nodes }
    requires nodes { demands.old.table.nodes ≡ length nodes.now }
    ensures nodes { OnOk result (demands.new.table.nodes ≡ length nodes.now) }
    ensures added { OnOk result ((entries : List Entry) → Shows entries demands.old → (more : List Entry) × (with_demand_row nodes.now entries row rows.now.current ≡ Ok more) × Shows more demands.new) }
    ensures refused { IfErr result (λ e. e ≢ fault.Memory → (entries : List Entry) → Shows entries demands.old → with_demand_row nodes.now entries row rows.now.current ≡ Err e) }
{
    let entry = read_entry(rows, nodes, row)?;
    demands.accept(entry, row)?;
    demands.put(alloc, entry)?;
    Ok(())
}
