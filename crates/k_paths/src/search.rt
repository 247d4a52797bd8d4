//! The rounds of the search for the least paths.
ghost use Rattle.std.specs.Prelude.{◌≡◌, ◌≢◌, ◌<◌, ◌≤◌, ◌^◌, ◌++◌, ◌∷◌, [], ◌⊎◌, ℕ, true, List, All, IfOk, OnOk, MatchOption, length};
ghost use Rattle.te_model.specs.Network.{node_count};
ghost use Rattle.shortest_path.specs.Links.{HasSoundLinks};
ghost use Rattle.shortest_path.specs.Paths.{IsBelow};
ghost use Rattle.k_paths.specs.Outgoing.{AreOutgoing};
ghost use Rattle.k_paths.specs.Search.{AreBehind, AreBounded, AreFirst, AreLeastCandidates, HasLess, IsDueSearch, IsPathSearch, bound_at, candidate_links};
ghost use Rattle.shortest_path.specs.Ways.{AreWays};

use crate::candidate::{BoundedClass, Candidate};
use crate::class::{least_of, split};
use crate::order::is_before;
use crate::outgoing::Outgoing;
use shortest_path::{Ways, length_along, way_from};
use std::alloc::Global;
use te_model::{Items, Memory, Network};

/// The number of the candidate that comes first.
pub fn first_of(costs: &[u64], candidates: &[Candidate]) -> usize
    requires some { 0 < length candidates.now }
    requires links { (k : ℕ) → k < length candidates.now → All (λ h. h < length costs.now) (candidate_links candidates.now k) }
    requires costs { All (λ c. c ≤ 2 ^ 28) costs.now }
    ensures inside { result < length candidates.now }
    ensures first { (k : ℕ) → k < length candidates.now → (candidate_links candidates.now k ≡ candidate_links candidates.now result) ⊎ IsBelow costs.now (candidate_links candidates.now result) (candidate_links candidates.now k) }
{
    let mut best = 0;
    for i in 0..candidates.len() {
        if is_before(
            costs,
            candidates[i].links.as_slice(),
            candidates[best].links.as_slice(),
        ) {
            best = i;
        }
    }
    best
}

/// The number of the class of the least bound.
fn least_bound(bounded: &[BoundedClass]) -> usize
    requires some { 0 < length bounded.now }
    ensures inside { result < length bounded.now }
    ensures least { (k : ℕ) → k < length bounded.now → bound_at bounded.now result ≤ bound_at bounded.now k }
{
    let mut best = 0;
    for i in 0..bounded.len() {
        if bounded[i].bound < bounded[best].bound {
            best = i;
        }
    }
    best
}

/// Whether one of the candidates costs less than the bound.
fn has_less(costs: &[u64], candidates: &[Candidate], bound: u128) -> bool
    requires links { (k : ℕ) → k < length candidates.now → All (λ h. h < length costs.now) (candidate_links candidates.now k) }
    requires costs { All (λ c. c ≤ 2 ^ 28) costs.now }
    ensures { result ≡ true → HasLess costs.now candidates.now bound }
{
    for candidate in candidates {
        if length_along(costs, candidate.links.as_slice()) < bound {
            return true;
        }
    }
    false
}

/// The number of the class to be searched next: that of the least bound, or `None` where a candidate
/// costs less.
fn due(costs: &[u64], candidates: &[Candidate], bounded: &[BoundedClass]) -> Option<usize>
    requires links { (k : ℕ) → k < length candidates.now → All (λ h. h < length costs.now) (candidate_links candidates.now k) }
    requires costs { All (λ c. c ≤ 2 ^ 28) costs.now }
    ensures { MatchOption result (AreBehind costs.now candidates.now bounded.now) (λ i. i < length bounded.now) }
{
    if bounded.is_empty() {
        return None;
    }
    let next = least_bound(bounded);
    if has_less(costs, candidates, bounded[next].bound) {
        None
    } else {
        Some(next)
    }
}

/// Searches classes by their bounds, until the first candidate comes before all paths of the others.
pub fn search_due(
    alloc: Global,
    net: &Network,
    ways: &Ways,
    src: u32,
    candidates: &mut Vec<Candidate>,
    bounded: &mut Vec<BoundedClass>,
) -> Result<(), Memory>
    requires sound { HasSoundLinks net.now }
    requires ways { AreWays net.now ways.now }
    requires least { AreLeastCandidates net.now src ways.now.dst candidates.old.items }
    requires bounds { AreBounded net.now src ways.now bounded.old.items }
    ensures { OnOk result ((found : List (List ℕ)) → IsPathSearch net.now src ways.now found candidates.old.items bounded.old.items → IsDueSearch net.now src ways.now found candidates.new.items bounded.new.items) }
{
    while let Some(next) = due(ways.costs.as_slice(), candidates, bounded) {
        let class = bounded.swap_remove(next);
        if let Some(found) = least_of(alloc, net, ways, src, &class)? {
            candidates.push(Candidate {
                links: Items::new(found),
                fixed: class.prefix.as_slice().len(),
                excluded: class.excluded,
            })?;
        }
    }
    Ok(())
}

/// The candidates without the best path, the rest of whose class goes to the bounded classes.
fn split_best(
    alloc: Global,
    net: &Network,
    ways: &Ways,
    outgoing: &Outgoing,
    src: u32,
    mut candidates: Vec<Candidate>,
    best: &[u32],
    bounded: &mut Vec<BoundedClass>,
) -> Result<Vec<Candidate>, Memory>
    requires sound { HasSoundLinks net.now }
    requires ways { AreWays net.now ways.now }
    requires outgoing { AreOutgoing net.now outgoing.now }
    requires least { AreLeastCandidates net.now src ways.now.dst candidates.items }
    requires first { AreFirst net.now best.now candidates.items }
    ensures { IfOk result (λ next. (found : List (List ℕ)) → IsDueSearch net.now src ways.now found candidates.items bounded.old.items → IsPathSearch net.now src ways.now (found ++ best.now ∷ []) next.items bounded.new.items) }
{
    let mut next = Vec::new(alloc);
    while let Some(candidate) = candidates.pop() {
        if candidate.links.as_slice() == best {
            split(alloc, net, ways, outgoing, src, &candidate, bounded)?;
        } else {
            next.push(candidate)?;
        }
    }
    Ok(next)
}

/// The candidates once the best path is found.
pub fn advance(
    alloc: Global,
    net: &Network,
    ways: &Ways,
    outgoing: &Outgoing,
    src: u32,
    candidates: Vec<Candidate>,
    best: &[u32],
    bounded: &mut Vec<BoundedClass>,
) -> Result<Vec<Candidate>, Memory>
    requires sound { HasSoundLinks net.now }
    requires ways { AreWays net.now ways.now }
    requires outgoing { AreOutgoing net.now outgoing.now }
    requires first { AreFirst net.now best.now candidates.items }
    requires search { (found : List (List ℕ)) × IsDueSearch net.now src ways.now found candidates.items bounded.old.items }
    ensures { IfOk result (λ next. (found : List (List ℕ)) → IsDueSearch net.now src ways.now found candidates.items bounded.old.items → IsDueSearch net.now src ways.now (found ++ best.now ∷ []) next.items bounded.new.items) }
{
    let mut next = split_best(alloc, net, ways, outgoing, src, candidates, best, bounded)?;
    search_due(alloc, net, ways, src, &mut next, bounded)?;
    Ok(next)
}

/// The class of all paths.
pub fn first_class(
    alloc: Global,
    net: &Network,
    ways: &Ways,
    src: u32,
) -> Result<Vec<Candidate>, Memory>
    requires sound { HasSoundLinks net.now }
    requires ways { AreWays net.now ways.now }
    requires src { src < node_count net.now }
    requires apart { src ≢ ways.now.dst }
    ensures { IfOk result (λ cs. IsDueSearch net.now src ways.now [] cs.items []) }
{
    let mut candidates = Vec::new(alloc);
    match way_from(alloc, net, ways, src)? {
        Some(way) => {
            let links = Items::new(way);
            let excluded = Items::new(Vec::new(alloc));
            candidates.push(Candidate {
                links,
                fixed: 0,
                excluded,
            })?;
        }
        None => {}
    }
    Ok(candidates)
}
