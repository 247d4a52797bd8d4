//! What a plan says, also where a member is left out.
use crate::cases::{Case, all_hold};
use plan::*;
use std::alloc::Global;

// The recovery of a plan, the scheme that it publishes, its margin, and whether it asks for the envelope.
type Choices = (Recovery, SchemeName, Option<(u64, u64)>, bool);

// The numbers of a plan: k, the budget, the trees, the seed and the number of seeds.
type Numbers = (u32, u32, u32, u64, u32);

// A plan, the schemes that it compares, whether it has a file of failures, its choices and its numbers.
struct Planned<'a>(&'a str, &'a [SchemeName], bool, Choices, Numbers);

const PLANS: &[Planned] = &[
    // Nothing but the two files.
    Planned(
        r#"{"topology":"t","matrices":"m"}"#,
        &SchemeName::DEFAULT,
        false,
        (Recovery::Keep, SchemeName::Racke, None, false),
        (4, 4, 8, 0, 1),
    ),
    Planned(
        r#"{"topology":"t","matrices":"m","failures":"f","schemes":["smore"],"recovery":"bypass","publish":"ksp","margin":[3,2],"seed":18446744073709551615,"seeds":64}"#,
        &[SchemeName::Smore],
        true,
        (Recovery::Bypass, SchemeName::Ksp, Some((3, 2)), false),
        (4, 4, 8, u64::MAX, 64),
    ),
    Planned(
        r#"{"envelope":true,"topology":"t","matrices":"m"}"#,
        &SchemeName::DEFAULT,
        false,
        (Recovery::Keep, SchemeName::Racke, None, true),
        (4, 4, 8, 0, 1),
    ),
    // A key that stands twice, first with a fault.
    Planned(
        r#"{"topology":"t","matrices":"m","k":0,"k":32}"#,
        &SchemeName::DEFAULT,
        false,
        (Recovery::Keep, SchemeName::Racke, None, false),
        (32, 4, 8, 0, 1),
    ),
    // No envelope, beside a margin.
    Planned(
        r#"{"topology":"t","matrices":"m","envelope":false,"margin":[2,1],"recovery":"adapt"}"#,
        &SchemeName::DEFAULT,
        false,
        (Recovery::Adapt, SchemeName::Racke, Some((2, 1)), false),
        (4, 4, 8, 0, 1),
    ),
];

// Whether a plan reads the files t and m, has a file of failures or none, and compares the schemes of the row.
fn has_files_and_schemes(plan: &Experiment, row: &Planned) -> bool {
    let reads = (plan.topology.as_str() == "t") & (plan.matrices.as_str() == "m");
    let compares = plan.schemes.as_slice() == row.1;
    reads & compares & (plan.failures.is_some() == row.2)
}

// Whether a plan says what the row says.
fn is_said(plan: &Experiment, row: &Planned) -> bool {
    let choices = (plan.recovery, plan.publish, plan.margin, plan.envelope) == row.3;
    let numbers = (plan.k, plan.budget, plan.trees, plan.seed, plan.seeds) == row.4;
    has_files_and_schemes(plan, row) & choices & numbers
}

impl Case for Planned<'_> {
    fn holds(&self, alloc: Global) -> bool {
        match read_plan(alloc, self.0.as_bytes()) {
            Ok(plan) => is_said(&plan, self),
            Err(_) => false,
        }
    }
}

#[test]
fn defaults_and_values(rt: HostRuntime) {
    all_hold(&rt, rt.alloc(), PLANS);
}
