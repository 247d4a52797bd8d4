//! The search for numbers that come to the least: while a source with a tail above 0 may send more, more is sent, or where no way leads
//! on, tails are lowered and heads raised.
ghost use Rattle.std.specs.Prelude.{◌≡◌, ℕ, ◌^◌, ◌<◌, ◌≤◌, length, slice_index, IfOk, IfSome};
ghost use Rattle.te_model.specs.declared.units.TheConstants.{SHARE_UNIT};
ghost use Rattle.cover_search.specs.Transport.{AreEndShares, IsLeastTransport, IsTransport, end_share, share_at, slack_of, source_at};
ghost use Rattle.cover_search.specs.Ways.{AreOpen, AreWays, GoesOn, IsBoundary, IsClosed, IsImprovedWhere, IsLowered, IsMoved, IsOpenSource, IsReaching, lowered_where, open_amount, raised_where};

use crate::reach::{Reached, reach};
use crate::transport::{EndShare, Transport, exchange, send, slack};
use std::alloc::Global;
use te_model::{Items, Memory, SHARE_UNIT, number_at};

// A source that may send more, with a tail above 0.
fn open_source(transport: &Transport) -> Option<u32>
    requires { length transport.now.tails ≤ 2 ^ 32 }
    ensures { IsOpenSource transport.now result }
{
    for i in 0..transport.tails.as_slice().len() {
        if number_at(transport.tails.as_slice(), i) > 0
            && number_at(transport.unsent.as_slice(), i) > 0
        {
            return Some(i as u32);
        }
    }
    None
}

// The least tail of the sources from which no way leads to an end.
fn least_tail(transport: &Transport, reached: &Reached) -> u64
    requires { (i : ℕ) → i < length transport.now.tails → slice_index transport.now.tails i ≡ 0 → 0 < slice_index reached.now.sources i }
    ensures each { (i : ℕ) → i < length transport.now.tails → slice_index reached.now.sources i ≡ 0 → result ≤ slice_index transport.now.tails i }
    ensures some { 1 ≤ result }
    ensures most { result ≤ SHARE_UNIT }
{
    let mut least = SHARE_UNIT;
    for i in 0..transport.tails.as_slice().len() {
        if number_at(reached.sources.as_slice(), i) == 0 {
            least = least.min(number_at(transport.tails.as_slice(), i));
        }
    }
    least
}

// The least of this and the slack of the shares from those sources to destinations with a way.
fn least_slack(transport: &Transport, shares: &[EndShare], reached: &Reached, most: u64) -> u64
    requires transport { IsTransport shares.now transport.now }
    requires closed { IsClosed shares.now transport.now reached.now }
    requires some { 1 ≤ most }
    ensures each { (k : ℕ) → k < length shares.now → IsBoundary shares.now reached.now k → result ≤ slack_of transport.now (end_share shares.now k) }
    ensures some { 1 ≤ result }
    ensures most { result ≤ most }
{
    let mut least = most;
    for ends in shares {
        if number_at(reached.sources.as_slice(), ends.source as usize) == 0
            && number_at(reached.destinations.as_slice(), ends.destination as usize) > 0
        {
            least = least.min(slack(transport, *ends));
        }
    }
    least
}

// Lowers the tails of the sources without a way.
fn lower_tails(tails: &mut Items<u64>, sources: &[u64], by: u64)
    requires { (i : ℕ) → i < length tails.old → slice_index sources.now i ≡ 0 → by ≤ slice_index tails.old i }
    ensures count { length tails.new ≡ length tails.old }
    ensures lowered { (i : ℕ) → slice_index tails.new i ≡ lowered_where sources.now by (slice_index tails.old) i }
{
    for i in 0..tails.as_slice().len() {
        if number_at(sources, i) == 0 {
            let lowered = tails.as_slice()[i] - by;
            tails.set(i, lowered);
        }
    }
}

// Raises the heads of the destinations without a way.
fn raise_heads(heads: &mut Items<u64>, destinations: &[u64], by: u64)
    requires heads { (i : ℕ) → slice_index heads.old i ≤ SHARE_UNIT }
    requires by { by ≤ SHARE_UNIT }
    ensures count { length heads.new ≡ length heads.old }
    ensures raised { (i : ℕ) → i < length heads.old → slice_index heads.new i ≡ raised_where destinations.now by (slice_index heads.old) i }
{
    for i in 0..heads.as_slice().len() {
        if number_at(destinations, i) == 0 {
            let raised = (heads.as_slice()[i] + by).min(SHARE_UNIT);
            heads.set(i, raised);
        }
    }
}

// Lowers tails and raises heads as far as the shares stay covered.
fn lower(transport: &mut Transport, shares: &[EndShare], reached: &Reached)
    requires transport { IsTransport shares.now transport.old }
    requires reaching { IsReaching shares.now transport.old reached.now }
    requires closed { IsClosed shares.now transport.old reached.now }
    ensures { IsLowered shares.now transport.old reached.now transport.new }
{
    let most = least_tail(transport, reached);
    let by = least_slack(transport, shares, reached, most);
    lower_tails(&mut transport.tails, reached.sources.as_slice(), by);
    raise_heads(&mut transport.heads, reached.destinations.as_slice(), by);
}

// Moves what the source may still send one step on its way: over the next share, to the end; or in place of the share that leads back
// from there, whose source may then send as much more, and is the answer.
fn hop(
    transport: &mut Transport,
    shares: &[EndShare],
    reached: &Reached,
    source: u32,
) -> Option<u32>
    requires transport { IsTransport shares.now transport.old }
    requires ways { AreWays shares.now transport.old reached.now }
    requires source { 1 < slice_index reached.now.sources source }
    ensures moved { IsMoved shares.now transport.old transport.new }
    ensures no_more { open_amount transport.new ≤ open_amount transport.old }
    ensures next { IfSome result (λ next. (0 < slice_index reached.now.sources next) × (slice_index reached.now.sources next < slice_index reached.now.sources source)) }
    ensures goes { 0 < slice_index transport.old.tails source → 0 < slice_index transport.old.unsent source → AreOpen transport.old reached.now (slice_index reached.now.sources source) → GoesOn shares.now transport.old reached.now source transport.new result }
{
    let k = number_at(reached.forward.as_slice(), source as usize) as usize;
    let destination = shares[k].destination as usize;
    let unsent = number_at(transport.unsent.as_slice(), source as usize);
    if number_at(reached.destinations.as_slice(), destination) == 1 {
        let amount = unsent.min(number_at(transport.unreceived.as_slice(), destination));
        send(transport, shares, k, amount);
        None
    } else {
        let back = number_at(reached.backward.as_slice(), destination) as usize;
        let amount = unsent.min(number_at(transport.demand.as_slice(), back));
        exchange(transport, shares, k, back, amount);
        Some(shares[back].source)
    }
}

// Moves it along its whole way, as far as the way is still open.
fn walk(transport: &mut Transport, shares: &[EndShare], reached: &Reached, source: u32)
    requires transport { IsTransport shares.now transport.old }
    requires ways { AreWays shares.now transport.old reached.now }
    ensures moved { IsMoved shares.now transport.old transport.new }
    ensures no_more { open_amount transport.new ≤ open_amount transport.old }
    ensures less { 0 < slice_index reached.now.sources source → 0 < slice_index transport.old.tails source → 0 < slice_index transport.old.unsent source → AreOpen transport.old reached.now (slice_index reached.now.sources source) → open_amount transport.new < open_amount transport.old }
{
    let mut place = source;
    for _ in 0..number_at(reached.sources.as_slice(), source as usize) {
        if number_at(reached.sources.as_slice(), place as usize) <= 1 {
            return;
        }
        match hop(transport, shares, reached, place) {
            Some(next) => place = next,
            None => return,
        }
    }
}

// Moves what each source may still send along its way, first that of this source.
fn walk_all(transport: &mut Transport, shares: &[EndShare], reached: &Reached, first: u32)
    requires transport { IsTransport shares.now transport.old }
    requires ways { AreWays shares.now transport.old reached.now }
    requires reached { 0 < slice_index reached.now.sources first }
    requires tail { 0 < slice_index transport.old.tails first }
    requires unsent { 0 < slice_index transport.old.unsent first }
    requires open { AreOpen transport.old reached.now (slice_index reached.now.sources first) }
    ensures moved { IsMoved shares.now transport.old transport.new }
    ensures less { open_amount transport.new < open_amount transport.old }
{
    walk(transport, shares, reached, first);
    for i in 0..transport.tails.as_slice().len() {
        if number_at(transport.tails.as_slice(), i) > 0 {
            walk(transport, shares, reached, i as u32);
        }
    }
}

// Whether a source with a tail above 0 may send more; more is then sent, or tails are lowered.
fn improve(alloc: Global, transport: &mut Transport, shares: &[EndShare]) -> Result<bool, Memory>
    requires { IsTransport shares.now transport.old }
    ensures { IfOk result (λ moved. IsImprovedWhere moved shares.now transport.old transport.new) }
{
    let Some(first) = open_source(transport) else {
        return Ok(false);
    };
    let reached = reach(alloc, transport, shares)?;
    if number_at(reached.sources.as_slice(), first as usize) == 0 {
        lower(transport, shares, &reached);
    } else {
        walk_all(transport, shares, &reached, first);
    }
    Ok(true)
}

/// Numbers that cover the shares at the least cost, with amounts over the shares within what each end may send and receive: nothing
/// is left to be sent where a tail is above 0, or to be received where a head is (the transportation problem and its dual; Kuhn,
/// 1955). The search begins with tails that cover alone.
///
/// # Errors
///
/// Only `Memory`, where memory runs out.
pub fn least_cover(
    alloc: Global,
    shares: &[EndShare],
    tails: Items<u64>,
    sent: &[u64],
    received: &[u64],
) -> Result<Transport, Memory>
    requires shares { AreEndShares (length tails) shares.now }
    requires nodes { length tails ≤ 2 ^ 10 }
    requires covers { (k : ℕ) → k < length shares.now → share_at shares.now k ≤ slice_index tails (source_at shares.now k) }
    requires small { (i : ℕ) → slice_index tails i ≤ SHARE_UNIT }
    requires sent { length sent.now ≡ length tails }
    requires received { length received.now ≡ length tails }
    requires sent_small { (i : ℕ) → slice_index sent.now i ≤ 2 ^ 32 }
    requires received_small { (i : ℕ) → slice_index received.now i ≤ 2 ^ 32 }
    ensures { IfOk result (λ t. IsLeastTransport shares.now (length tails) (slice_index sent.now) (slice_index received.now) t) }
{
    let nodes = tails.as_slice().len();
    let mut transport = Transport {
        tails,
        heads: Items::new(vec![in alloc; 0; nodes]?),
        demand: Items::new(vec![in alloc; 0; shares.len()]?),
        unsent: Items::new(Vec::from_slice(alloc, sent)?),
        unreceived: Items::new(Vec::from_slice(alloc, received)?),
    };
    for _ in 0..u64::MAX {
        if !improve(alloc, &mut transport, shares)? {
            return Ok(transport);
        }
    }
    Ok(transport)
}
