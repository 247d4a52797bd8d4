//! Reading the file of rates.
ghost use Rattle.std.specs.Prelude.{◌≡◌, ◌+◌, ◌≤◌, List, [], ◌∷◌, ◌++◌, IfOk, OnOk, length};
ghost use Rattle.cert_text.specs.Reading.{narrow_number};
ghost use Rattle.number_tables.specs.declared.line.NumLine.{NumLine};
ghost use Rattle.number_tables.specs.Due.{has_count};
ghost use Rattle.number_tables.specs.TakingDue.{IsBefore, TakesDue, LeavesAtLine};
ghost use Rattle.fault_rates.specs.PairLines.{BeginsWithPair, BeginsWithPairs, LeavesAtPairs};
ghost use Rattle.fault_rates.specs.Plan.{IsValidPlan};
ghost use Rattle.fault_rates.specs.Reading.{GivesRates, SpellsKept};

use crate::fault::RateFault;
use crate::parts::paths_of;
use crate::plan::{RatePlan, plan_fault};
use number_tables::{DueLines, TableFault};
use routing::Routing;
use std::alloc::Global;
use te_model::{Items, Memory, PairRoutes, PathShare};

// The grant of a pair, and its allocations.
#[derive(Drop)]
struct PairRates {
    grant: u64,
    allocation: Items<u64>,
}

// The number of failures of a number: the greatest of 32 bits where it has more, which the rules refuse.
fn kept_failures(number: u64) -> u32
    ensures { result ≡ narrow_number number }
{
    u32::try_from(number).unwrap_or(u32::MAX)
}

// The first number, and those after it.
fn grant_and_allocation(alloc: Global, numbers: &[u64]) -> Result<PairRates, Memory>
    requires { 1 ≤ length numbers.now }
    ensures { IfOk result (λ rates. numbers.now ≡ rates.grant ∷ rates.allocation) }
{
    let allocation = Vec::from_slice(alloc, &numbers[1..])?;
    Ok(PairRates {
        grant: numbers[0],
        allocation: Items::new(allocation),
    })
}

// One pair more.
fn push_rates(
    grant: &mut Vec<u64>,
    allocation: &mut Vec<Items<u64>>,
    rates: PairRates,
) -> Result<(), Memory>
    ensures grant { OnOk result (grant.new.items ≡ grant.old.items ++ rates.grant ∷ []) }
    ensures allocation { OnOk result (allocation.new.items ≡ allocation.old.items ++ rates.allocation ∷ []) }
{
    grant.push(rates.grant)?;
    allocation.push(rates.allocation)?;
    Ok(())
}

// The line of a pair with these paths.
fn take_pair<'a>(
    alloc: Global,
    lines: &mut DueLines<'a>,
    paths: &[PathShare],
) -> Result<PairRates, TableFault>
    ensures { (ls : List NumLine) → IsBefore lines.old ls →
        TakesDue (BeginsWithPair (length paths.now)) (LeavesAtLine [] (has_count (1 + length paths.now))) result lines.old lines.new ls }
{
    let numbers = lines.numbers(alloc, b"", 1 + paths.len())?;
    Ok(grant_and_allocation(alloc, numbers.as_slice())?)
}

// The lines of the pairs, after that of the number of failures.
fn take_pairs<'a>(
    alloc: Global,
    lines: &mut DueLines<'a>,
    routes: &[PairRoutes],
    failures: u32,
) -> Result<RatePlan, TableFault>
    ensures takes { (ls : List NumLine) → IsBefore lines.old ls →
        TakesDue (BeginsWithPairs routes.now) (LeavesAtPairs routes.now) result lines.old lines.new ls }
    ensures failures { IfOk result (λ plan. plan.failures ≡ failures) }
{
    let mut grant = Vec::new(alloc);
    let mut allocation = Vec::new(alloc);
    for p in 0..routes.len() {
        let rates = take_pair(alloc, lines, paths_of(routes, p))?;
        push_rates(&mut grant, &mut allocation, rates)?;
    }
    Ok(RatePlan {
        failures,
        grant: Items::new(grant),
        allocation: Items::new(allocation),
    })
}

// The rates that the bytes spell, with the number of failures that is kept.
fn spelled(alloc: Global, routes: &[PairRoutes], bytes: &[u8]) -> Result<RatePlan, TableFault>
    ensures { SpellsKept routes.now bytes.now result }
{
    let mut lines = DueLines::new(alloc, b"yates-rates 1", bytes)?;
    let failures = kept_failures(lines.number(alloc, b"failures")?);
    let plan = take_pairs(alloc, &mut lines, routes, failures)?;
    lines.end(alloc)?;
    Ok(plan)
}

/// Reads the file of rates of a routing with these routes: a table with the first line `yates-rates 1`, a line `failures` with one number,
/// and for each pair a line of its grant and one allocation for each of its paths.
///
/// # Errors
///
/// The answer is determined by the bytes, want of memory aside:
///
/// - `Shape(line)`: the first line at which the bytes leave the tables, or else the files of rates of this routing;
/// - `Rule(fault)`: the bytes are such a file, and this is the failing rule of the least number, G1 or G2, at its least place;
/// - `Memory`, where memory runs out.
pub fn read_by_routes(
    alloc: Global,
    routes: &[PairRoutes],
    bytes: &[u8],
) -> Result<RatePlan, RateFault>
    ensures rates { GivesRates routes.now bytes.now result }
    ensures valid { IfOk result (IsValidPlan routes.now) }
{
    let plan = spelled(alloc, routes, bytes)?;
    match plan_fault(&plan) {
        None => Ok(plan),
        Some(fault) => Err(RateFault::Rule(fault)),
    }
}

/// Reads the file of rates of the routing, as [`read_by_routes`] does of its routes.
///
/// # Errors
///
/// Those of [`read_by_routes`].
pub fn read(alloc: Global, routing: &Routing, bytes: &[u8]) -> Result<RatePlan, RateFault>
    ensures rates { GivesRates routing.now.routes bytes.now result }
    ensures valid { IfOk result (IsValidPlan routing.now.routes) }
{
    read_by_routes(alloc, routing.routes.as_slice(), bytes)
}
