//! Sums on the links, in one pass over the paths.
ghost use Rattle.std.specs.Prelude.{◌≡◌, ℕ, ◌+◌, ◌^◌, ◌<◌, ◌≤◌, length, slice_index, All, IfOk, IsTrue};
ghost use Rattle.te_model.specs.declared.limits.TheConstants.{FORMAT_2};
ghost use Rattle.te_model.specs.Network.{link_count};
ghost use Rattle.te_model.specs.Path.{amount_on, is_distinct};
ghost use Rattle.fault_rates.specs.Plan.{amount_of_paths};
ghost use Rattle.fault_rates.specs.Tables.{AreSimplePaths, CanJudge, allocated_on, paths_on};

use crate::parts::{allocations_of, link_count, links_of, paths_of};
use crate::plan::RatePlan;
use multiplicative_lengths::add_along;
use std::alloc::Global;
use te_model::{FORMAT_2, Memory, Network, PairRoutes, PathShare};

/// How many links a network has at most.
pub(crate) const MOST_LINKS: usize = FORMAT_2.links as usize;

// How many of the paths hold the link, for each link.
pub(crate) fn paths_on_links(paths: &[PathShare]) -> [u64; MOST_LINKS]
    requires few { length paths.now ≤ 32 }
    requires paths { AreSimplePaths FORMAT_2.links paths.now }
    ensures count { length result ≡ FORMAT_2.links }
    ensures each { (e : ℕ) → slice_index result e ≡ paths_on paths.now e }
{
    let mut counts = [0; MOST_LINKS];
    for i in 0..paths.len() {
        let links = links_of(paths, i);
        add_along(&mut counts, links, 1);
    }
    counts
}

// Adds the allocation of each of the paths on its links.
fn add_allocations(sums: &mut [u64], paths: &[PathShare], allocation: &[u64])
    requires few { length paths.now ≤ 32 }
    requires paths { AreSimplePaths (length sums.old) paths.now }
    requires count { length allocation.now ≡ length paths.now }
    requires small { (i : ℕ) → slice_index allocation.now i ≤ 2 ^ 32 }
    requires room { (h : ℕ) → slice_index sums.old h ≤ 2 ^ 63 }
    ensures { (h : ℕ) → slice_index sums.new h
        ≡ slice_index sums.old h + amount_of_paths paths.now (slice_index allocation.now) h }
{
    for i in 0..paths.len() {
        let links = links_of(paths, i);
        add_along(sums, links, allocation[i]);
    }
}

// The sum of the allocations on each link.
pub(crate) fn allocated(
    alloc: Global,
    net: &Network,
    routes: &[PairRoutes],
    plan: &RatePlan,
) -> Result<Vec<u64>, Memory>
    requires { CanJudge net.now routes.now plan.now }
    ensures count { IfOk result (λ sums. length sums.items ≡ link_count net.now) }
    ensures each { IfOk result (λ sums. (e : ℕ) → slice_index sums.items e ≡ allocated_on routes.now plan.now e) }
{
    let links = link_count(net);
    let mut sums = vec![in alloc; 0u64; links]?;
    for p in 0..routes.len() {
        let paths = paths_of(routes, p);
        let allocation = allocations_of(plan, p);
        add_allocations(&mut sums, paths, allocation);
    }
    Ok(sums)
}
