//! Links serve the flows that stand in their queues.
ghost use Rattle.std.specs.Prelude.{◌≡◌, ℕ, ◌+◌, ◌-◌, ◌^◌, ◌<◌, ◌≤◌, [], EachIndex, IfOk, OnOk, length, map, sum, slice_index, slice_index_or, if◌then◌else◌};
ghost use Rattle.flow_sim.specs.Serving.{link_serves, served_by, flow_at, flow_served, HasShape, HasRoomFor, IsAbsent, IsServed, IsServingRound, AreApart};

use crate::fair::{fair_share, total_of};
use crate::queue::Round;
use crate::state::State;
use crate::tables::zeros;
use std::alloc::Global;
use te_model::Memory;

// The units of the flows of a queue.
fn units_of(alloc: Global, queue: &[u32], units: &[u64]) -> Result<Vec<u64>, Memory>
    requires { (i : ℕ) → i < length queue.now → slice_index queue.now i < length units.now }
    ensures { IfOk result (λ v. v.items ≡ map (slice_index units.now) queue.now) }
{
    let mut list = Vec::with_capacity(alloc, queue.len())?;
    for flow in queue {
        list.push(units[*flow as usize])?;
    }
    Ok(list)
}

// What a link serves of what arrives: nothing if it has failed, and else fair shares of what it has left.
fn shares_of(alloc: Global, failed: bool, left: u64, arrivals: &[u64]) -> Result<Vec<u64>, Memory>
    requires { sum arrivals.now < 2 ^ 64 }
    ensures shares { IfOk result (λ v. v.items ≡ link_serves failed left arrivals.now) }
    ensures sum { IfOk result (λ v. sum v.items ≤ left) }
    ensures within { IfOk result (λ v. EachIndex arrivals.now (λ i. slice_index v.items i ≤ slice_index arrivals.now i)) }
{
    let mut served = zeros(alloc, arrivals.len())?;
    if !failed {
        fair_share(left, arrivals, &mut served);
    }
    Ok(served)
}

// A flow has what it was served, and has lost the rest.
fn book_loss(flow: usize, served: u64, units: &mut [u64], lost: &mut [u64])
    requires flow { (flow < length units.old) × (flow < length lost.old) }
    requires within { served ≤ slice_index units.old flow }
    requires room { slice_index lost.old flow + slice_index units.old flow < 2 ^ 64 }
    ensures served { slice_index units.new flow ≡ served }
    ensures lost { slice_index lost.new flow ≡ slice_index lost.old flow + (slice_index units.old flow - served) }
    ensures others { (f : ℕ) → (f ≡ flow → ⊥) → (slice_index units.new f ≡ slice_index units.old f) × (slice_index lost.new f ≡ slice_index lost.old f) }
{
    lost[flow] += units[flow] - served;
    units[flow] = served;
}

// Each flow of a queue has what it was served, and has lost the rest.
fn book_losses(queue: &[u32], served: &[u64], units: &mut [u64], lost: &mut [u64])
    requires lengths { (length served.now ≡ length queue.now) × (length lost.old ≡ length units.old) }
    requires inside { (i : ℕ) → i < length queue.now → slice_index queue.now i < length units.old }
    requires ascending { (i j : ℕ) → i < j → j < length queue.now → slice_index queue.now i < slice_index queue.now j }
    requires within { EachIndex queue.now (λ i. slice_index served.now i ≤ slice_index units.old (slice_index queue.now i)) }
    requires room { EachIndex queue.now (λ i. slice_index lost.old (slice_index queue.now i) + slice_index units.old (slice_index queue.now i) < 2 ^ 64) }
    ensures served { EachIndex queue.now (λ i. slice_index units.new (slice_index queue.now i) ≡ slice_index served.now i) }
    ensures lost { EachIndex queue.now (λ i. slice_index lost.new (slice_index queue.now i)
        ≡ slice_index lost.old (slice_index queue.now i) + (slice_index units.old (slice_index queue.now i) - slice_index served.now i)) }
    ensures others { (f : ℕ) → IsAbsent queue.now f → (slice_index units.new f ≡ slice_index units.old f) × (slice_index lost.new f ≡ slice_index lost.old f) }
{
    for i in 0..queue.len() {
        book_loss(queue[i] as usize, served[i], units, lost);
    }
}

// The flows of a queue were served so much by a link that has failed, or by one that has not.
fn book(failed: bool, queue: &[u32], served: &[u64], state: &mut State)
    requires shape { HasShape (length state.old.units.items) (length state.old.left.items) state.old }
    requires lengths { length served.now ≡ length queue.now }
    requires inside { (i : ℕ) → i < length queue.now → slice_index queue.now i < length state.old.units.items }
    requires ascending { (i j : ℕ) → i < j → j < length queue.now → slice_index queue.now i < slice_index queue.now j }
    requires within { EachIndex queue.now (λ i. slice_index served.now i ≤ slice_index state.old.units.items (slice_index queue.now i)) }
    requires room { EachIndex queue.now (λ i. HasRoomFor state.old (slice_index queue.now i)) }
    ensures shape { HasShape (length state.old.units.items) (length state.old.left.items) state.new }
    ensures left { state.new.left.items ≡ state.old.left.items }
    ensures served { EachIndex queue.now (λ i. flow_at state.new (slice_index queue.now i)
        ≡ flow_served failed (flow_at state.old (slice_index queue.now i)) (slice_index served.now i)) }
    ensures others { (f : ℕ) → IsAbsent queue.now f → flow_at state.new f ≡ flow_at state.old f }
{
    if failed {
        book_losses(queue, served, &mut state.units, &mut state.lost_failed);
    } else {
        book_losses(queue, served, &mut state.units, &mut state.lost_full);
    }
}

// Takes what a link served off what it has left.
fn take_off(left: &mut [u64], link: usize, served: u64)
    requires link { link < length left.old }
    requires within { served ≤ slice_index left.old link }
    ensures taken { slice_index left.new link ≡ slice_index left.old link - served }
    ensures others { (e : ℕ) → (e ≡ link → ⊥) → slice_index left.new e ≡ slice_index left.old e }
{
    left[link] -= served;
}

// A link serves the flows of its queue.
fn serve_link(
    alloc: Global,
    failed: bool,
    link: usize,
    queue: &[u32],
    state: &mut State,
) -> Result<(), Memory>
    requires shape { HasShape (length state.old.units.items) (length state.old.left.items) state.old }
    requires link { link < length state.old.left.items }
    requires inside { (i : ℕ) → i < length queue.now → slice_index queue.now i < length state.old.units.items }
    requires ascending { (i j : ℕ) → i < j → j < length queue.now → slice_index queue.now i < slice_index queue.now j }
    requires fits { sum (map (slice_index state.old.units.items) queue.now) < 2 ^ 64 }
    requires room { EachIndex queue.now (λ i. HasRoomFor state.old (slice_index queue.now i)) }
    ensures shape { OnOk result (HasShape (length state.old.units.items) (length state.old.left.items) state.new) }
    ensures served { OnOk result (IsServed failed link queue.now state.old state.new) }
    ensures others { OnOk result ((f : ℕ) → IsAbsent queue.now f → flow_at state.new f ≡ flow_at state.old f) }
    ensures other_links { OnOk result ((e : ℕ) → (e ≡ link → ⊥) → slice_index state.new.left.items e ≡ slice_index state.old.left.items e) }
{
    let arrivals = units_of(alloc, queue, state.units.as_slice())?;
    let served = shares_of(alloc, failed, state.left[link], arrivals.as_slice())?;
    take_off(&mut state.left, link, total_of(served.as_slice()));
    book(failed, queue, served.as_slice(), state);
    Ok(())
}

/// Each link serves the flows of its queue, in a round in which no flow stands in two of them.
pub fn serve_round(
    alloc: Global,
    failed: &[bool],
    round: &Round,
    state: &mut State,
) -> Result<(), Memory>
    requires shape { HasShape (length state.old.units.items) (length failed.now) state.old }
    requires links { length round.now ≡ length failed.now }
    requires apart { AreApart (length state.old.units.items) round.now }
    requires fits { (e : ℕ) → sum (map (slice_index state.old.units.items) (slice_index_or round.now e [])) < 2 ^ 64 }
    requires room { (f : ℕ) → f < length state.old.units.items → HasRoomFor state.old f }
    ensures shape { OnOk result (HasShape (length state.old.units.items) (length failed.now) state.new) }
    ensures round { OnOk result (IsServingRound failed.now round.now state.old state.new) }
{
    for link in 0..failed.len() {
        serve_link(alloc, failed[link], link, round.queue(link), state)?;
    }
    Ok(())
}
