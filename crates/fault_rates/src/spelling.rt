//! Rates are printed and read back, and read and printed again.
ghost use Rattle.std.specs.Prelude.{◌≡◌, Err, IfErr, IfOk};
ghost use Rattle.fault_rates.specs.Plan.{IsValidPlan};
ghost use Rattle.fault_rates.specs.Reading.{GivesRates, GivesRatesOrMemory};

use crate::fault::RateFault;
use crate::plan::RatePlan;
use crate::reader::read;
use crate::writer::print;
use routing::Routing;
use std::alloc::Global;

/// Prints the rates and reads them back: what [`print`] writes, [`read`] takes for the same rates.
pub fn print_and_read(
    alloc: Global,
    routing: &Routing,
    plan: &RatePlan,
) -> Result<RatePlan, RateFault>
    requires { IsValidPlan routing.now.routes plan.now }
    ensures same { GivesRatesOrMemory result plan.now }
{
    let file = print(alloc, plan)?;
    read(alloc, routing, file.as_slice())
}

/// Reads the file and prints it again: what [`read`] takes, [`print`] writes byte for byte.
pub fn read_and_print(alloc: Global, routing: &Routing, bytes: &[u8]) -> Result<Vec<u8>, RateFault>
    ensures same { IfOk result (λ file. file.items ≡ bytes.now) }

    // It is refused as [`read`] refuses it, but for want of memory.
    ensures refused { IfErr result (λ fault. GivesRates routing.now.routes bytes.now (Err fault)) }
{
    let plan = read(alloc, routing, bytes)?;
    Ok(print(alloc, &plan)?)
}
