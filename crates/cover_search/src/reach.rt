//! Ways over which a source can send more: over a tight share to a destination that may receive more, or from which a share comes whose
//! source may send over another; or to a source with the tail 0.
ghost use Rattle.std.specs.Prelude.{◌≡◌, ℕ, ◌^◌, ◌<◌, ◌≤◌, List, length, slice_index, IfOk, IsTrue, IsFalse, if◌then◌else◌, ◌==◌};
ghost use Rattle.cover_search.specs.Transport.{IsTransport};
ghost use Rattle.cover_search.specs.Ways.{IsBackAt, IsClosed, IsClosedAt, IsOnwardAt, IsReaching, unreached_count};
ghost use Rattle.cover_search.specs.declared.transport.EndShare.{EndShare};

use crate::transport::{EndShare, Transport, put, slack};
use std::alloc::Global;
use te_model::{Items, Memory, number_at};

/// The nodes from which a way leads to an end, as sources and as destinations: each with a number that falls along its way, 1 at
/// an end and 0 where there is none; and by which share the way goes on.
#[derive(Drop)]
pub struct Reached {
    pub sources: Items<u64>,
    pub destinations: Items<u64>,
    pub forward: Items<u64>,
    pub backward: Items<u64>,
    /// The greatest number.
    pub last: u64,
}

// 1 where the number is 0, and else 0.
fn ends_at_zero(alloc: Global, numbers: &[u64]) -> Result<Items<u64>, Memory>
    ensures count { IfOk result (λ marks. length marks ≡ length numbers.now) }
    ensures marks { IfOk result (λ marks. (i : ℕ) → i < length numbers.now → slice_index marks i ≡ (if slice_index numbers.now i == 0 then 1 else 0)) }
{
    let mut marks = Items::new(vec![in alloc; 0; numbers.len()]?);
    for i in 0..numbers.len() {
        if numbers[i] == 0 {
            marks.set(i, 1);
        }
    }
    Ok(marks)
}

// 1 where the number is above 0, and else 0.
fn ends_above_zero(alloc: Global, numbers: &[u64]) -> Result<Items<u64>, Memory>
    ensures count { IfOk result (λ marks. length marks ≡ length numbers.now) }
    ensures marks { IfOk result (λ marks. (i : ℕ) → i < length numbers.now → slice_index marks i ≡ (if slice_index numbers.now i == 0 then 0 else 1)) }
{
    let mut marks = Items::new(vec![in alloc; 0; numbers.len()]?);
    for i in 0..numbers.len() {
        if numbers[i] > 0 {
            marks.set(i, 1);
        }
    }
    Ok(marks)
}

// The ends alone.
fn ends_of(alloc: Global, transport: &Transport) -> Result<Reached, Memory>
    requires nodes { length transport.now.tails ≤ 2 ^ 32 }
    requires unreceived { length transport.now.unreceived ≡ length transport.now.tails }
    ensures { IfOk result (λ r. (shares : List EndShare) → IsReaching shares transport.now r) }
{
    let nodes = transport.tails.as_slice().len();
    let sources = ends_at_zero(alloc, transport.tails.as_slice())?;
    let destinations = ends_above_zero(alloc, transport.unreceived.as_slice())?;
    Ok(Reached {
        sources,
        destinations,
        forward: Items::new(vec![in alloc; 0; nodes]?),
        backward: Items::new(vec![in alloc; 0; nodes]?),
        last: 1,
    })
}

// Gives the source of share k a number, where a way goes on over the share.
fn reach_source(reached: &mut Reached, transport: &Transport, shares: &[EndShare], k: usize) -> bool
    requires transport { IsTransport shares.now transport.now }
    requires reaching { IsReaching shares.now transport.now reached.old }
    requires share { k < length shares.now }
    ensures reaching { IsReaching shares.now transport.now reached.new }
    ensures found { IsTrue result → unreached_count transport.now reached.new < unreached_count transport.now reached.old }
    ensures none { IsFalse result → (reached.new ≡ reached.old) × IsOnwardAt shares.now transport.now reached.old k }
{
    let ends = shares[k];
    let source = ends.source as usize;
    let to = number_at(reached.destinations.as_slice(), ends.destination as usize);
    if reached.sources.as_slice()[source] > 0 || to == 0 || slack(transport, ends) > 0 {
        return false;
    }
    reached.last += 1;
    put(&mut reached.sources, source, reached.last);
    put(&mut reached.forward, source, k as u64);
    true
}

// Gives the destination of share k a number, where a way goes back over the share.
fn reach_destination(
    reached: &mut Reached,
    transport: &Transport,
    shares: &[EndShare],
    k: usize,
) -> bool
    requires transport { IsTransport shares.now transport.now }
    requires reaching { IsReaching shares.now transport.now reached.old }
    requires share { k < length shares.now }
    ensures reaching { IsReaching shares.now transport.now reached.new }
    ensures found { IsTrue result → unreached_count transport.now reached.new < unreached_count transport.now reached.old }
    ensures none { IsFalse result → (reached.new ≡ reached.old) × IsBackAt shares.now transport.now reached.old k }
{
    let ends = shares[k];
    let destination = ends.destination as usize;
    let from = number_at(reached.sources.as_slice(), ends.source as usize);
    if reached.destinations.as_slice()[destination] > 0
        || from == 0
        || number_at(transport.demand.as_slice(), k) == 0
    {
        return false;
    }
    reached.last += 1;
    put(&mut reached.destinations, destination, reached.last);
    put(&mut reached.backward, destination, k as u64);
    true
}

// Gives the ends of share k numbers, where a way goes on or back over the share: whether one got a number.
fn reach_over(reached: &mut Reached, transport: &Transport, shares: &[EndShare], k: usize) -> bool
    requires transport { IsTransport shares.now transport.now }
    requires reaching { IsReaching shares.now transport.now reached.old }
    requires share { k < length shares.now }
    ensures reaching { IsReaching shares.now transport.now reached.new }
    ensures found { IsTrue result → unreached_count transport.now reached.new < unreached_count transport.now reached.old }
    ensures none { IsFalse result → (reached.new ≡ reached.old) × IsClosedAt shares.now transport.now reached.old k }
{
    let source = reach_source(reached, transport, shares, k);
    let destination = reach_destination(reached, transport, shares, k);
    source || destination
}

// One pass over the shares: whether a node was reached.
fn pass(reached: &mut Reached, transport: &Transport, shares: &[EndShare]) -> bool
    requires transport { IsTransport shares.now transport.now }
    requires reaching { IsReaching shares.now transport.now reached.old }
    ensures reaching { IsReaching shares.now transport.now reached.new }
    ensures found { IsTrue result → unreached_count transport.now reached.new < unreached_count transport.now reached.old }
    ensures none { IsFalse result → IsClosed shares.now transport.now reached.new }
{
    let mut found = false;
    for k in 0..shares.len() {
        if reach_over(reached, transport, shares, k) {
            found = true;
        }
    }
    found
}

/// All nodes from which a way leads to an end.
pub fn reach(alloc: Global, transport: &Transport, shares: &[EndShare]) -> Result<Reached, Memory>
    requires { IsTransport shares.now transport.now }
    ensures { IfOk result (λ r. IsReaching shares.now transport.now r × IsClosed shares.now transport.now r) }
{
    let mut reached = ends_of(alloc, transport)?;
    for _ in 0..u64::MAX {
        if !pass(&mut reached, transport, shares) {
            return Ok(reached);
        }
    }
    Ok(reached)
}
