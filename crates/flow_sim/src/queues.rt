//! Puts each flow of a step into the queues of the links of its path.
ghost use Rattle.std.specs.Prelude.{◌≡◌, ℕ, ◌+◌, ◌*◌, ◌^◌, ◌<◌, ◌≤◌, [], ◌∷◌, ◌++◌, All, IfOk, OnOk, length, slice_index_or, slice_set, if◌then◌else◌, vec_len};
ghost use Rattle.te_model.specs.declared.limits.TheConstants.{FORMAT_2};
ghost use Rattle.flow_sim.specs.Queues.{queues_in, queue_at, asks, HasRoom, AreAlike, AreAdded, AreQueues};
ghost use Rattle.flow_sim.specs.Traffic.{longest, flow_paths, paths_of};

use crate::queue::Round;
use std::alloc::Global;
use te_model::{Items, Memory, PairRoutes, PathShare};

// Rounds in which no flow asks a link.
fn empty_rounds(alloc: Global, rounds: usize, links: usize) -> Result<Vec<Round>, Memory>
    ensures { IfOk result (λ v. (vec_len v ≡ rounds) × All (λ r. (length r ≡ links) × All (λ q. q ≡ []) r) v.items) }
{
    let mut list = Vec::new(alloc);
    for _ in 0..rounds {
        list.push(Round::empty(alloc, links)?)?;
    }
    Ok(list)
}

// A flow comes to stand in the queue of a link in a round.
fn add_flow(rounds: &mut [Round], round: usize, link: u32, flow: u32) -> Result<(), Memory>
    requires link { link < length (queues_in rounds.old round) }
    requires round { round < length rounds.old }
    ensures { OnOk result (rounds.new ≡ slice_set rounds.old round (slice_set (queues_in rounds.old round) link (queue_at rounds.old round link ++ flow ∷ []))) }
{
    rounds[round].add(link as usize, flow)
}

// A flow comes to stand in the queue of each link of its path, in the round of that link.
fn add_path(rounds: &mut [Round], flow: u32, path: &PathShare) -> Result<(), Memory>
    requires room { HasRoom rounds.old path.now }
    ensures alike { OnOk result (AreAlike rounds.old rounds.new) }
    ensures added { OnOk result ((r e : ℕ) → e < length (queues_in rounds.old r) →
        queue_at rounds.new r e ≡ queue_at rounds.old r e ++ (if asks path.now r e then flow ∷ [] else [])) }
{
    let links = path.links.as_slice();
    for round in 0..links.len() {
        add_flow(rounds, round, links[round], flow)?;
    }
    Ok(())
}

// The flows of a pair, numbered from the first, come to stand in the queues of their links.
fn add_paths(rounds: &mut [Round], first: u32, paths: &[PathShare]) -> Result<(), Memory>
    requires room { All (HasRoom rounds.old) paths.now }
    requires numbers { first + length paths.now ≤ 2 ^ 31 }
    ensures { OnOk result (AreAdded first paths.now rounds.old rounds.new) }
{
    for i in 0..paths.len() {
        add_path(rounds, first + i as u32, &paths[i])?;
    }
    Ok(())
}

/// The queues of all rounds, in each of them one for each link, in which those flows stand that ask it.
pub fn queues_of(
    alloc: Global,
    rates: &Items<PairRoutes>,
    rounds: usize,
    links: usize,
) -> Result<Vec<Round>, Memory>
    requires pairs { length rates.now ≤ FORMAT_2.nodes * FORMAT_2.nodes }
    requires few { (p : ℕ) → p < length rates.now → length (paths_of rates.now p) ≤ 4096 }
    requires rounds { longest (flow_paths rates.now) ≤ rounds }
    requires links { (p : ℕ) → p < length rates.now → All (λ s. All (λ e. e < links) s.links) (paths_of rates.now p) }
    ensures rounds { IfOk result (λ v. length v.items ≡ rounds) }
    ensures queues { IfOk result (λ v. AreQueues (flow_paths rates.now) links v.items) }
{
    let mut list = empty_rounds(alloc, rounds, links)?;
    let pairs = rates.as_slice();
    let mut first = 0;
    for p in 0..pairs.len() {
        let paths = pairs[p].paths.as_slice();
        add_paths(&mut list, first, paths)?;
        first += paths.len() as u32;
    }
    Ok(list)
}
