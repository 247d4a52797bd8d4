//! What is kept of what a scheme prepares for networks that are left of failed links.
ghost use Rattle.std.specs.Prelude.{◌≡◌, ◌<◌, ◌≤◌, All, Contains, IfOk, IsTrue, length, slice_index_or};
ghost use Rattle.std.specs.List.{IsFirstMaxByKey};
ghost use Rattle.std.specs.Option.{IfSome};
ghost use Rattle.te_model.specs.Network.{is_well_formed, link_count};
ghost use Rattle.scheme.specs.Reach.{ArePairsOf};
ghost use Rattle.series_simulation.specs.declared.kept_preparations.TheConstants.{KEPT_SETS};
ghost use Rattle.series_simulation.specs.SurvivorPreparation.{AreKept, IsPreparedAt, next_use};

use crate::survivor_preparation::{SurvivorPreparation, prepare_survivor};
use scheme::Scheme;
use std::alloc::Global;
use te_model::{Items, Memory, Network, Pairs};

/// For how many sets of failed links at most what was prepared is kept, that of the step among them: for links that fail in turn, without
/// more memory than so many plans take.
pub const KEPT_SETS: usize = 8;

/// The first of the steps that follow in which exactly these links have failed, by its place among them, or how many follow.
fn next_use(later: &[Items<bool>], failed: &[bool]) -> usize
    ensures { result ≡ next_use later.now failed.now }
{
    for place in 0..later.len() {
        if later[place].as_slice() == failed {
            return place;
        }
    }
    later.len()
}

/// The place of what was prepared for these failed links.
fn place_of<P: Drop>(kept: &[SurvivorPreparation<P>], failed: &[bool]) -> Option<usize>
    ensures { IfSome result (λ place. (place < length kept.now) × ((d : SurvivorPreparation P) → (slice_index_or kept.now place d).failed ≡ failed.now)) }
{
    for place in 0..kept.len() {
        if kept[place].failed.as_slice() == failed {
            return Some(place);
        }
    }
    None
}

/// The place of what is needed last of all by the steps that follow.
fn needed_last<P: Drop>(kept: &[SurvivorPreparation<P>], later: &[Items<bool>]) -> usize
    requires { 0 < length kept.now }
    ensures { IsFirstMaxByKey (λ made. next_use later.now made.failed) kept.now (length kept.now) result }
{
    let mut last = 0;
    let mut greatest = next_use(later, kept[0].failed.as_slice());
    for place in 1..kept.len() {
        let next = next_use(later, kept[place].failed.as_slice());
        if next > greatest {
            last = place;
            greatest = next;
        }
    }
    last
}

/// Drops what no step that follows needs, and where the kept ones are as many as may be, the one that is needed last.
fn make_room<P: Drop>(kept: &mut Vec<SurvivorPreparation<P>>, later: &[Items<bool>])
    requires few { length kept.old.items ≤ KEPT_SETS }
    ensures few { length kept.new.items < KEPT_SETS }
    ensures kept { All (Contains kept.old.items) kept.new.items }
{
    kept.retain(|made| next_use(later, made.failed.as_slice()) < later.len());
    if kept.len() >= KEPT_SETS {
        let last = needed_last(kept, later);
        kept.remove(last);
    }
}

/// The place of what the scheme prepares for the network without its failed links, which is prepared if it is not kept.
///
/// `failed` has one mark for each link, and `later` has those of the steps that follow. `Memory` comes where memory is wanting.
pub fn place_for<S: Scheme>(
    alloc: Global,
    scheme: &S,
    net: &Network,
    failed: &[bool],
    pairs: &Pairs,
    kept: &mut Vec<SurvivorPreparation<S::Plan>>,
    later: &[Items<bool>],
) -> Result<usize, Memory>
    requires network { IsTrue (is_well_formed net.now) }
    requires marks { length failed.now ≡ link_count net.now }
    requires pairs { ArePairsOf net.now pairs.now.list }
    requires kept { AreKept (S.is_plan scheme.now) net.now pairs.now.list kept.old.items }
    ensures prepared { IfOk result (IsPreparedAt (S.is_plan scheme.now) net.now failed.now pairs.now.list kept.new.items) }
    ensures kept { IfOk result (λ place. AreKept (S.is_plan scheme.now) net.now pairs.now.list kept.new.items) }
{
    if let Some(place) = place_of(kept, failed) {
        return Ok(place);
    }
    make_room(kept, later);
    let made = prepare_survivor(alloc, scheme, net, failed, pairs)?;
    let place = kept.len();
    kept.push(made)?;
    Ok(place)
}
