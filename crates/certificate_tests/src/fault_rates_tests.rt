//! Rates of the straight routes: their file, the verdict on them, and those that are made. What is said of several paths of a pair is shown by whole
//! calls.
ghost use Rattle.std.specs.Prelude.{◌≡◌, ◌≤◌, IfOk};
ghost use Rattle.te_model.specs.ThreeNodes.{straight_routes};
ghost use Rattle.fault_rates.specs.Plan.{IsValidPlan};

use crate::cases::{Case, all_hold};
use crate::ratio_certificate_tests::straight_routing;
use crate::update_plan_tests::even_matrix;
use fault_rates::spelling::{print_and_read, read_and_print};
use fault_rates::{RateFault, RatePlan, RateVerdict, judge, print, protect, read};
use routing::Routing;
use sample_networks::three_nodes;
use std::alloc::Global;
use te_model::{Memory, RuleFault};

// A demand of both pairs, a file of rates, and the verdict on them, or why the file is refused.
struct Rates<'a>(u32, &'a [u8], Result<RateVerdict, RateFault>);

const RATES: &[Rates] = &[
    Rates(
        10,
        b"yates-rates 1\nfailures 0\n10 10\n10 10\nend\n",
        Ok(RateVerdict::Yes),
    ),
    // The one path of a pair may fail.
    Rates(
        10,
        b"yates-rates 1\nfailures 1\n0 10\n0 10\nend\n",
        Ok(RateVerdict::Yes),
    ),
    Rates(
        10,
        b"yates-rates 1\nfailures 1\n0 10\n1 10\nend\n",
        Ok(RateVerdict::No { rule: 2, place: 1 }),
    ),
    Rates(
        10,
        b"yates-rates 1\nfailures 0\n10 10\n10 11\nend\n",
        Ok(RateVerdict::No { rule: 1, place: 1 }),
    ),
    Rates(
        9,
        b"yates-rates 1\nfailures 0\n9 10\n10 10\nend\n",
        Ok(RateVerdict::No { rule: 3, place: 1 }),
    ),
    Rates(
        10,
        b"yates-rates 1\nfailures 9\n10 10\n10 4294967297\nend\n",
        Err(RateFault::Rule(RuleFault {
            number: 1,
            place: 0,
        })),
    ),
    Rates(
        10,
        b"yates-rates 1\nfailures 0\n10 10\n10 4294967297\nend\n",
        Err(RateFault::Rule(RuleFault {
            number: 2,
            place: 1,
        })),
    ),
    Rates(
        10,
        b"yates-rates 1\nfailures 0\n10 10\nend\n",
        Err(RateFault::Shape(4)),
    ),
    Rates(
        10,
        b"yates-rates 1\nfailures 0\n10 10 10\n10\nend\n",
        Err(RateFault::Shape(3)),
    ),
];

// The verdict on rates of this routing, under this demand of both pairs.
fn verdict_on(
    alloc: Global,
    routing: &Routing,
    demand: u32,
    plan: &RatePlan,
) -> Result<RateVerdict, Memory>
    requires routing { routing.now.routes ≡ straight_routes }
    requires plan { IsValidPlan routing.now.routes plan.now }
{
    let net = three_nodes(alloc)?;
    let matrix = even_matrix(alloc, 2, demand)?;
    judge(alloc, &net, routing, &matrix, plan)
}

// Whether this is said of the file.
fn is_judged(alloc: Global, routing: &Routing, rates: &Rates) -> bool
    requires { routing.now.routes ≡ straight_routes }
{
    match read(alloc, routing, rates.1) {
        Ok(plan) => match verdict_on(alloc, routing, rates.0, &plan) {
            Ok(verdict) => rates.2 == Ok(verdict),
            Err(_) => false,
        },
        Err(fault) => rates.2 == Err(fault),
    }
}

// Whether a file that is read is printed again as it was, and another refused for the same.
fn is_printed_again(alloc: Global, routing: &Routing, rates: &Rates) -> bool {
    match read_and_print(alloc, routing, rates.1) {
        Ok(file) => rates.2.is_ok() && file.as_slice() == rates.1,
        Err(fault) => rates.2 == Err(fault),
    }
}

impl Case for Rates<'_> {
    fn holds(&self, alloc: Global) -> bool {
        match straight_routing(alloc) {
            Ok(routing) => {
                is_judged(alloc, &routing, self) && is_printed_again(alloc, &routing, self)
            }
            Err(_) => false,
        }
    }
}

// A demand of both pairs, how many links may fail, and the file of the rates that are made.
struct Made<'a>(u32, u32, &'a [u8]);

const MADE: &[Made] = &[
    Made(7, 0, b"yates-rates 1\nfailures 0\n7 7\n7 7\nend\n"),
    Made(40, 0, b"yates-rates 1\nfailures 0\n10 10\n10 10\nend\n"),
    Made(7, 1, b"yates-rates 1\nfailures 1\n0 0\n0 0\nend\n"),
];

// Rates of this routing, under this demand of both pairs.
fn made_rates(
    alloc: Global,
    routing: &Routing,
    demand: u32,
    failures: u32,
) -> Result<RatePlan, Memory>
    requires routing { routing.now.routes ≡ straight_routes }
    requires failures { failures ≤ 8 }
    ensures { IfOk result (IsValidPlan routing.now.routes) }
{
    let net = three_nodes(alloc)?;
    let matrix = even_matrix(alloc, 2, demand)?;
    protect(alloc, &net, routing, &matrix, failures)
}

// Whether rates have this file, and are read back from it.
fn have_file(alloc: Global, routing: &Routing, plan: &RatePlan, file: &[u8]) -> bool
    requires { IsValidPlan routing.now.routes plan.now }
{
    let is_printed = match print(alloc, plan) {
        Ok(printed) => printed.as_slice() == file,
        Err(_) => false,
    };
    match print_and_read(alloc, routing, plan) {
        Ok(again) => {
            is_printed
                && again.failures == plan.failures
                && again.grant.as_slice() == plan.grant.as_slice()
        }
        Err(_) => false,
    }
}

// Whether the rates of the row are made.
fn are_made(alloc: Global, made: &Made) -> Result<bool, Memory>
    requires { made.now.1 ≤ 8 }
{
    let routing = straight_routing(alloc)?;
    let plan = made_rates(alloc, &routing, made.0, made.1)?;
    Ok(have_file(alloc, &routing, &plan, made.2))
}

impl Case for Made<'_> {
    fn holds(&self, alloc: Global) -> bool {
        self.1 <= 8 && matches!(are_made(alloc, self), Ok(true))
    }
}

#[test]
fn rates_are_judged_or_refused(rt: HostRuntime) {
    all_hold(&rt, rt.alloc(), RATES);
}

#[test]
fn rates_are_made(rt: HostRuntime) {
    all_hold(&rt, rt.alloc(), MADE);
}
