//! Writing the file of rates.
ghost use Rattle.std.specs.Prelude.{◌≡◌, [], ◌∷◌, codes, length, IfOk};
ghost use Rattle.number_tables.specs.Due.{word_line};
ghost use Rattle.fault_rates.specs.File.{rate_lines, rates_text};

use crate::parts::allocations_of;
use crate::plan::RatePlan;
use number_tables::{NumLine, print_table};
use std::alloc::Global;
use te_model::Memory;

// The line of the number of failures.
fn failures_line(alloc: Global, failures: u32) -> Result<NumLine, Memory>
    ensures { IfOk result (λ l. l ≡ word_line (codes "failures") (failures ∷ [])) }
{
    let numbers = vec![in alloc; u64::from(failures)]?;
    NumLine::new(alloc, "failures", numbers)
}

// The line of a pair.
fn pair_line(alloc: Global, grant: u64, allocation: &[u64]) -> Result<NumLine, Memory>
    ensures { IfOk result (λ l. l ≡ word_line [] (grant ∷ allocation.now)) }
{
    let mut numbers = vec![in alloc; grant]?;
    numbers.extend_from_slice(allocation)?;
    NumLine::new(alloc, "", numbers)
}

fn rate_lines(alloc: Global, plan: &RatePlan) -> Result<Vec<NumLine>, Memory>
    requires { length plan.now.grant ≡ length plan.now.allocation }
    ensures { IfOk result (λ lines. lines.items ≡ rate_lines plan.now) }
{
    let grants = plan.grant.as_slice();
    let mut lines = Vec::new(alloc);
    lines.push(failures_line(alloc, plan.failures)?)?;
    for p in 0..grants.len() {
        lines.push(pair_line(alloc, grants[p], allocations_of(plan, p))?)?;
    }
    Ok(lines)
}

/// The text of the rates, of which [`read`](crate::read) gives them back.
///
/// # Errors
///
/// Only `Memory`, where memory runs out.
pub fn print(alloc: Global, plan: &RatePlan) -> Result<Vec<u8>, Memory>
    requires { length plan.now.grant ≡ length plan.now.allocation }
    ensures { IfOk result (λ file. file.items ≡ rates_text plan.now) }
{
    let lines = rate_lines(alloc, plan)?;
    print_table(alloc, b"yates-rates 1", lines.as_slice())
}
