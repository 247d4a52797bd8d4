//! What is answered of a certificate's routing and the demands of declared pairs: the status, and the whole text.
ghost use Rattle.std.specs.Prelude.{◌≡◌, ◌≤◌, length, IfOk, IsTrue, string_bytes};
ghost use Rattle.te_model.specs.declared.limits.TheConstants.{FORMAT_2};
ghost use Rattle.te_model.specs.Network.{is_well_formed};
ghost use Rattle.te_model.specs.PathRouting.{IsPathRouting};
ghost use Rattle.routing.specs.Routes.{AreDemands, HasFewPaths};
ghost use Rattle.fault_rates.specs.Answers.{IsProtectionAnswer, IsRatesAnswer, SaysNoPairs, verdict_line, verdict_status};
ghost use Rattle.fault_rates.specs.Plan.{IsValidPlan};

use crate::maker::made_rates;
use crate::plan::RatePlan;
use crate::verdict::{RateVerdict, verdict_on};
use crate::writer::print;
use routing::have_pairs;
use std::alloc::Global;
use te_model::{Head, Matrix, Memory, Pairs};

// The answer where the declared pairs are others.
fn no_pairs(alloc: Global) -> Result<(u8, Vec<u8>), Memory>
    ensures { IfOk result (λ answer. SaysNoPairs answer.0 answer.1.items) }
{
    Ok((1, Vec::from_slice(alloc, b"no pairs\n")?))
}

fn verdict_status(verdict: RateVerdict) -> u8
    ensures { result ≡ verdict_status verdict }
{
    match verdict {
        RateVerdict::Yes => 0,
        RateVerdict::No { .. } => 1,
    }
}

// The line of a verdict on rates for so many failures.
fn verdict_line(alloc: Global, failures: u32, verdict: RateVerdict) -> Result<String, Memory>
    ensures { IfOk result (λ line. string_bytes line ≡ verdict_line failures verdict) }
{
    match verdict {
        RateVerdict::Yes => Ok(format!(in alloc; "yes failures {failures}\n")?),
        RateVerdict::No { rule, place } => {
            Ok(format!(in alloc; "no rule F{rule} place {place}\n")?)
        }
    }
}

/// What `check-rates` answers of the head of a certificate, the demands of the declared pairs and rates of its pairs: 1 and
/// `no pairs` where it routes other pairs; else 0 and `yes failures K`, or 1 and `no rule FK place P`, each with a line feed.
///
/// # Errors
///
/// Only `Memory`, where memory runs out.
pub fn check_rates_text(
    alloc: Global,
    head: &Head,
    pairs: &Pairs,
    matrix: &Matrix,
    plan: &RatePlan,
) -> Result<(u8, Vec<u8>), Memory>
    requires network { IsTrue (is_well_formed head.now.network) }
    requires routing { IsPathRouting head.now.network head.now.routes }
    requires few { HasFewPaths 32 head.now.routes }
    requires count { length head.now.routes ≤ FORMAT_2.pairs }
    requires demands { AreDemands (length pairs.now.list) matrix.now.demand }
    requires plan { IsValidPlan head.now.routes plan.now }
    ensures { IfOk result (λ answer. IsRatesAnswer head.now pairs.now.list matrix.now.demand plan.now answer.0 answer.1.items) }
{
    let routes = head.routes.as_slice();
    if !have_pairs(routes, pairs.list.as_slice()) {
        return no_pairs(alloc);
    }
    let verdict = verdict_on(alloc, &head.network, routes, matrix, plan)?;
    let line = verdict_line(alloc, plan.failures, verdict)?;
    Ok((verdict_status(verdict), line.into_bytes()))
}

/// What `protect` answers of the head of a certificate and the demands of the declared pairs: 1 and `no pairs` where it routes
/// other pairs; else 0 and the file of rates that [`protect`](crate::protect) may give for so many failures, at most 8.
///
/// # Errors
///
/// Only `Memory`, where memory runs out.
pub fn protect_text(
    alloc: Global,
    head: &Head,
    pairs: &Pairs,
    matrix: &Matrix,
    failures: u32,
) -> Result<(u8, Vec<u8>), Memory>
    requires network { IsTrue (is_well_formed head.now.network) }
    requires routing { IsPathRouting head.now.network head.now.routes }
    requires few { HasFewPaths 32 head.now.routes }
    requires count { length head.now.routes ≤ FORMAT_2.pairs }
    requires demands { AreDemands (length pairs.now.list) matrix.now.demand }
    requires failures { failures ≤ 8 }
    ensures { IfOk result (λ answer. IsProtectionAnswer head.now pairs.now.list matrix.now.demand failures answer.0 answer.1.items) }
{
    let routes = head.routes.as_slice();
    if !have_pairs(routes, pairs.list.as_slice()) {
        return no_pairs(alloc);
    }
    let plan = made_rates(
        alloc,
        &head.network,
        routes,
        matrix.demand.as_slice(),
        failures,
    )?;
    Ok((0, print(alloc, &plan)?))
}
