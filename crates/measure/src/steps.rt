//! Simulated steps of the network, with four paths for each pair.
ghost use Rattle.std.specs.Prelude.{◌≡◌, ◌≤◌, ◌^◌, IfOk, IsTrue, EachIndex, length, slice_index};
ghost use Rattle.te_model.specs.Network.{is_well_formed, link_count, node_count};
ghost use Rattle.scheme.specs.Reach.{ArePairsOf};
ghost use Rattle.local_recovery.specs.Rates.{ArePairs, IsRates};

use crate::network::next_number;
use crate::pairs::pairs_from;
use flow_sim::step;
use k_paths::Ksp;
use local_recovery::{Mode, Recovered, recover};
use scheme::{Oblivious, Scheme, SchemeFault};
use std::alloc::{AllocError, Global};
use te_model::{Items, Matrix, Memory, Network, Pairs};

// A demand for each of so many pairs.
fn demands(alloc: Global, count: usize) -> Result<Matrix, AllocError>
    ensures count { IfOk result (λ m. length m.demand ≡ count) }
    ensures small { IfOk result (λ m. EachIndex m.demand (λ p. slice_index m.demand p ≤ 2 ^ 32)) }
{
    let mut demand = Vec::new(alloc);
    let mut state = 11u64;
    for _ in 0..count {
        demand.push(u64::from(next_number(&mut state) % 1000))?;
    }
    Ok(Matrix {
        demand: Items::new(demand),
    })
}

// The four least paths of each pair, with even weights.
fn four_paths(
    alloc: Global,
    net: &Network,
    failed: &[bool],
    pairs: &Pairs,
) -> Result<Recovered, SchemeFault>
    requires network { IsTrue (is_well_formed net.now) }
    requires marks { length failed.now ≡ link_count net.now }
    requires pairs { ArePairsOf net.now pairs.now.list }
    requires ascending { ArePairs net.now pairs.now.list }
    ensures { IfOk result (λ r. IsRates net.now r.routes) }
{
    let ksp = Ksp { k: 4 };
    let plan = ksp.prepare(alloc, net, pairs)?;
    let rates = recover(alloc, Mode::Keep, net, failed, ksp.fixed(&plan))?;
    Ok(rates)
}

// How many units are lost on full links in a step, which is taken so many rounds.
fn lost_in_rounds(
    alloc: Global,
    net: &Network,
    failed: &[bool],
    rates: &Recovered,
    rounds: u32,
) -> Result<u64, Memory>
    requires network { IsTrue (is_well_formed net.now) }
    requires marks { length failed.now ≡ link_count net.now }
    requires rates { IsRates net.now rates.now.routes }
{
    let matrix = demands(alloc, rates.routes.as_slice().len())?;
    let mut lost = 0u64;
    for _ in 0..rounds {
        lost = step(alloc, net, failed, rates, &matrix)?.lost_full;
    }
    Ok(lost)
}

// The same with the four least paths of the pairs.
fn lost_by_pairs(
    alloc: Global,
    net: &Network,
    failed: &[bool],
    pairs: &Pairs,
    rounds: u32,
) -> Result<u64, SchemeFault>
    requires network { IsTrue (is_well_formed net.now) }
    requires marks { length failed.now ≡ link_count net.now }
    requires pairs { ArePairsOf net.now pairs.now.list }
    requires ascending { ArePairs net.now pairs.now.list }
{
    let rates = four_paths(alloc, net, failed, pairs)?;
    Ok(lost_in_rounds(alloc, net, failed, &rates, rounds)?)
}

/// How many units the pairs of the first `sources` nodes lose on full links in a step in which no link fails. The step is taken
/// so many rounds.
pub fn lost_in_steps(
    alloc: Global,
    net: &Network,
    sources: u32,
    rounds: u32,
) -> Result<u64, SchemeFault>
    requires network { IsTrue (is_well_formed net.now) }
    requires nodes { node_count net.now ≡ 64 }
    requires sources { sources ≤ 64 }
{
    let failed = vec![in alloc; false; net.links.as_slice().len()]?;
    let pairs = pairs_from(alloc, net, sources)?;
    lost_by_pairs(alloc, net, &failed, &pairs, rounds)
}
