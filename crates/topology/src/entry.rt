//! What a row says.

ghost use Rattle.std.specs.Prelude.{◌≡◌, IfOk, IfErr, Ok, Err, true, false, MatchOption};
ghost use Rattle.te_model.specs.Network.{is_name};
ghost use Rattle.topology.specs.Topology.{link_entry};

use crate::fault::TopologyFault;
use csv_records::{Rows, number_within};
use te_model::is_name;

/// A link between two names.
#[derive(Clone, Copy)]
pub struct Entry<'r> {
    pub source: &'r str,
    pub target: &'r str,
    pub capacity: u64,
    pub cost: u32,
}

/// What the row says that was read last, or the first of its faults.
pub fn read_entry<'r>(rows: &'r Rows<'_>, row: u64) -> Result<Entry<'r>, TopologyFault>
    ensures entry { IfOk result (λ e. link_entry row rows.now.current ≡ Ok (record { source = e.source.now; target = e.target.now; capacity = e.capacity; cost = e.cost })) }
    ensures refused { IfErr result (λ f. link_entry row rows.now.current ≡ Err f) }
{
    let Some((source, target, capacity, cost)) = rows.four_fields() else {
        return Err(TopologyFault::Fields(row));
    };
    let Some(source) = as_name(source) else {
        return Err(TopologyFault::Name(row));
    };
    let Some(target) = as_name(target) else {
        return Err(TopologyFault::Name(row));
    };
    let Some(capacity) = number_within(capacity, 1, 1 << 32) else {
        return Err(TopologyFault::Number(row));
    };
    let Some(cost) = number_within(cost, 1, 65535) else {
        return Err(TopologyFault::Number(row));
    };
    if source == target {
        return Err(TopologyFault::SelfLink(row));
    }
    Ok(Entry {
        source,
        target,
        capacity,
        cost: cost as u32,
    })
}

// The name that a field is, if it is one.
fn as_name(field: &[u8]) -> Option<&str>
    ensures { MatchOption result (is_name field.now ≡ false) (λ name. (is_name field.now ≡ true) × (name.now ≡ field.now)) }
{
    if !is_name(field) {
        return None;
    }
    match str::from_utf8(field) {
        Ok(name) => Some(name),
        Err(_) => unreachable!(),
    }
}
