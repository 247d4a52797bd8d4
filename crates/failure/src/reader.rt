//! Reading a failure file.

ghost use Rattle.std.specs.Prelude.{◌≡◌, ◌≢◌, ℕ, ◌<◌, ◌^◌, ◌∷◌, All, IfErr, IfOk, IsTrue, OnOk, Ok, Err};
ghost use Rattle.te_model.specs.Network.{is_well_formed, link_count};
ghost use Rattle.csv_records.specs.Rows.{fold_rows, fold_table};
ghost use Rattle.failure.specs.declared.fault.FailureFault.TheVariants as fault;
ghost use Rattle.failure.specs.File.{failures_of, outage_of, with_outage_row, is_failure_header, IsOutage};
ghost use Rattle.failure.specs.Series.{no_failures};

use crate::fault::FailureFault;
use crate::outage::{Failures, Outage};
use csv_records::{Rows, number};
use std::alloc::Global;
use te_model::{Items, Network};

/// Reads the failures of a network in a series of `steps` steps: the header `from,to,link`, and then a row for each
/// outage. The link goes by its number in the network.
///
/// An error is the fault of the first offending row, by the order of [`FailureFault`]; `Header` stands before all of
/// them. Each outage that is read is of a link of the network, and its steps are steps of the series, the first of
/// them not above the last.
pub fn read(
    alloc: Global,
    net: &Network,
    steps: u32,
    bytes: &[u8],
) -> Result<Failures, FailureFault>
    requires { IsTrue (is_well_formed net.now) }
    ensures failures { IfOk result (λ f. failures_of (link_count net.now) steps bytes.now ≡ Ok f) }
    ensures in_range { IfOk result (λ f. All (IsOutage (link_count net.now) steps) f.list) }
    ensures refused { IfErr result (λ e. e ≢ fault.Memory → failures_of (link_count net.now) steps bytes.now ≡ Err e) }
{
    let mut rows = Rows::new(alloc, bytes);
    read_header(&mut rows)?;
    let links = net.links.as_slice().len();
    read_outages(alloc, &mut rows, links, steps)
}

// Reads the first record, which is the header.
fn read_header(rows: &mut Rows<'_>) -> Result<(), FailureFault>
    ensures first { OnOk result (rows.old.rest ≡ rows.new.current ∷ rows.new.rest) }
    ensures header { OnOk result (IsTrue (is_failure_header rows.new.current)) }
    ensures refused { IfErr result (λ e. e ≢ fault.Memory → (links steps : ℕ) → fold_table is_failure_header fault.Header (with_outage_row links steps) no_failures rows.old.rest ≡ Err e) }
{
    if !rows.advance()? || !has_header(rows) {
        return Err(FailureFault::Header);
    }
    Ok(())
}

// Whether the record that was read last is the header.
fn has_header(rows: &Rows<'_>) -> bool
    ensures { result ≡ is_failure_header rows.now.current }
{
    match rows.three_fields() {
        Some((from, to, link)) => {
            from == b"from".as_slice() && to == b"to".as_slice() && link == b"link".as_slice()
        }
        None => false,
    }
}

// Reads the rows that are left, an outage from each.
fn read_outages(
    alloc: Global,
    rows: &mut Rows<'_>,
    links: usize,
    steps: u32,
) -> Result<Failures, FailureFault>
    requires { links < 2 ^ 32 }
    ensures failures { IfOk result (λ f. fold_rows (with_outage_row links steps) no_failures 1 rows.old.rest ≡ Ok f) }
    ensures in_range { IfOk result (λ f. All (IsOutage links steps) f.list) }
    ensures refused { IfErr result (λ e. e ≢ fault.Memory → fold_rows (with_outage_row links steps) no_failures 1 rows.old.rest ≡ Err e) }
{
    let mut list = Vec::new(alloc);
    let mut row = 1u64;
    while rows.advance()? {
        let outage = read_outage(rows, row, links, steps)?;
        list.push(outage)?;
        row += 1;
    }
    Ok(Failures {
        list: Items::new(list),
    })
}

// What the row says that was read last, or the first of its faults.
fn read_outage(rows: &Rows<'_>, row: u64, links: usize, steps: u32) -> Result<Outage, FailureFault>
    requires { links < 2 ^ 32 }
    ensures outage { IfOk result (λ o. outage_of links steps row rows.now.current ≡ Ok o) }
    ensures in_range { IfOk result (IsOutage links steps) }
    ensures refused { IfErr result (λ f. outage_of links steps row rows.now.current ≡ Err f) }
{
    let Some((from, to, link)) = rows.three_fields() else {
        return Err(FailureFault::Fields(row));
    };
    let Some(from) = number(from) else {
        return Err(FailureFault::Number(row));
    };
    let Some(to) = number(to) else {
        return Err(FailureFault::Number(row));
    };
    let Some(link) = number(link) else {
        return Err(FailureFault::Number(row));
    };
    if link >= links as u64 {
        return Err(FailureFault::NoSuchLink(row));
    }
    if from > to || to >= u64::from(steps) {
        return Err(FailureFault::Interval(row));
    }
    Ok(Outage {
        from: from as u32,
        to: to as u32,
        link: link as u32,
    })
}
