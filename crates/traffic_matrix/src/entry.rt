//! What a row says.

ghost use Rattle.std.specs.Prelude.{◌≡◌, ◌<◌, ◌≤◌, ◌^◌, IfOk, IfErr, Ok, Err, length};
ghost use Rattle.te_model.specs.declared.limits.TheConstants.{FORMAT_2};
ghost use Rattle.traffic_matrix.specs.Rows.{demand_entry};

use crate::fault::MatrixFault;
use crate::nodes::Nodes;
use csv_records::{Rows, number, number_within};
use te_model::Pair;

/// The demand of a pair in a step.
#[derive(Clone, Copy)]
pub struct Entry {
    pub step: u64,
    pub pair: Pair,
    pub demand: u64,
}

/// What the row says that was read last, or the first of the faults of its fields.
pub fn read_entry(rows: &Rows<'_>, nodes: &Nodes, row: u64) -> Result<Entry, MatrixFault>
    requires { length nodes.now ≤ FORMAT_2.nodes }
    ensures entry { IfOk result (λ e. demand_entry nodes.now row rows.now.current ≡ Ok e) }
    ensures nodes { IfOk result (λ e. (e.pair.src < length nodes.now) × (e.pair.dst < length nodes.now)) }
    ensures refused { IfErr result (λ f. demand_entry nodes.now row rows.now.current ≡ Err f) }
{
    let Some((step, source, target, demand)) = rows.four_fields() else {
        return Err(MatrixFault::Fields(row));
    };
    let Some(src) = nodes.find(source) else {
        return Err(MatrixFault::UnknownNode(row));
    };
    let Some(dst) = nodes.find(target) else {
        return Err(MatrixFault::UnknownNode(row));
    };
    let Some(step) = number(step) else {
        return Err(MatrixFault::Number(row));
    };
    let Some(demand) = number_within(demand, 0, 1 << 32) else {
        return Err(MatrixFault::Number(row));
    };
    let pair = Pair {
        src: src as u32,
        dst: dst as u32,
    };
    Ok(Entry { step, pair, demand })
}
