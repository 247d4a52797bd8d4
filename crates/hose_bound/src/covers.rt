//! Numbers that cover the shares on a link, none of which can be lowered.
ghost use Rattle.std.specs.Prelude.{◌≡◌, ℕ, ◌<◌, ◌≤◌, All, IfOk, IsTrue, length, slice_index};
ghost use Rattle.te_model.specs.declared.units.TheConstants.{SHARE_UNIT};
ghost use Rattle.te_model.specs.Laws.{PairsJoinNodes};
ghost use Rattle.te_model.specs.Network.{is_well_formed, link_count, node_count};
ghost use Rattle.te_model.specs.Path.{share, source_of, destination_of};
ghost use Rattle.routing.specs.Shares.{AreSharesOn};
ghost use Rattle.hose_bound.specs.Covering.{AreEndsOf, AreLeastNumbers, IsLeastFrom, IsMadeBlock, end_of, other_end, raised_at};
ghost use Rattle.hose_bound.specs.Judging.{AreSmallAmounts};
ghost use Rattle.hose_bound.specs.Making.{IsAttained};

use crate::hose::{Hose, HoseBlock};
use cover_search::{EndShare, least_cover};
use routing::PairShare;
use std::alloc::Global;
use te_model::{Items, Memory, Network, PairRoutes, number_at};

// An end of a pair.
#[derive(Clone, Copy)]
pub enum End {
    Source,
    Destination,
}

fn other_end(end: End) -> End
    ensures { result ≡ other_end end }
{
    match end {
        End::Source => End::Destination,
        End::Destination => End::Source,
    }
}

// The node at this end of the pair.
fn end_of(end: End, routes: &[PairRoutes], pair: u32) -> u32
    requires { pair < length routes.now }
    ensures { result ≡ end_of end routes.now pair }
{
    let pair = routes[pair as usize].pair;
    match end {
        End::Source => pair.src,
        End::Destination => pair.dst,
    }
}

// Raises the number of a node to the least that it may be.
fn raise(numbers: &mut Items<u64>, node: usize, least: u64)
    requires node { node < length numbers.old }
    ensures count { length numbers.new ≡ length numbers.old }
    ensures raised { (i : ℕ) → slice_index numbers.new i ≡ raised_at (slice_index numbers.old) node least i }
{
    if numbers.as_slice()[node] < least {
        numbers.set(node, least);
    }
}

// The least numbers at this end that cover the shares, together with these at the other end.
fn least_numbers(
    alloc: Global,
    end: End,
    nodes: usize,
    routes: &[PairRoutes],
    shares: &[PairShare],
    others: &[u64],
) -> Result<Items<u64>, Memory>
    requires pairs { All (λ s. s.pair < length routes.now) shares.now }
    requires ends { (p : ℕ) → p < length routes.now → end_of end routes.now p < nodes }
    ensures { IfOk result (AreLeastNumbers end nodes routes.now shares.now others.now) }
{
    let mut numbers = Items::new(vec![in alloc; 0; nodes]?);
    for pair in shares {
        let node = end_of(end, routes, pair.pair) as usize;
        let other = number_at(others, end_of(other_end(end), routes, pair.pair) as usize);
        raise(&mut numbers, node, pair.share.saturating_sub(other));
    }
    Ok(numbers)
}

// From any numbers of the destinations a cover of which no number can be lowered.
fn lowered_from(
    alloc: Global,
    nodes: usize,
    routes: &[PairRoutes],
    link: u32,
    shares: &[PairShare],
    heads: &[u64],
) -> Result<HoseBlock, Memory>
    requires pairs { All (λ s. s.pair < length routes.now) shares.now }
    requires sources { (p : ℕ) → p < length routes.now → source_of routes.now p < nodes }
    requires destinations { (p : ℕ) → p < length routes.now → destination_of routes.now p < nodes }
    ensures { IfOk result (IsLeastFrom nodes routes.now link shares.now heads.now) }
{
    let tails = least_numbers(alloc, End::Source, nodes, routes, shares, heads)?;
    let heads = least_numbers(
        alloc,
        End::Destination,
        nodes,
        routes,
        shares,
        tails.as_slice(),
    )?;
    Ok(HoseBlock { link, tails, heads })
}

// The shares with the ends of their pairs.
fn end_shares(
    alloc: Global,
    routes: &[PairRoutes],
    shares: &[PairShare],
) -> Result<Vec<EndShare>, Memory>
    requires { All (λ s. s.pair < length routes.now) shares.now }
    ensures { IfOk result (λ ends. AreEndsOf routes.now shares.now ends.items) }
{
    let mut ends = Vec::new(alloc);
    for pair in shares {
        ends.push(EndShare {
            source: end_of(End::Source, routes, pair.pair),
            destination: end_of(End::Destination, routes, pair.pair),
            share: pair.share,
        })?;
    }
    Ok(ends)
}

// The block of a link with these shares: numbers that come to the least by the hose, lowered.
pub fn tight_cover(
    alloc: Global,
    net: &Network,
    routes: &[PairRoutes],
    hose: &Hose,
    link: u32,
    shares: &[PairShare],
) -> Result<HoseBlock, Memory>
    requires network { IsTrue (is_well_formed net.now) }
    requires ends { PairsJoinNodes net.now routes.now }
    requires small { (p : ℕ) → p < length routes.now → share routes.now p link ≤ SHARE_UNIT }
    requires sent { length hose.now.sent ≡ node_count net.now }
    requires received { length hose.now.received ≡ node_count net.now }
    requires amounts { AreSmallAmounts hose.now }
    requires link { link < link_count net.now }
    requires shares { AreSharesOn routes.now link shares.now }
    ensures made { IfOk result (λ b. (b.link ≡ link) × IsMadeBlock net.now routes.now hose.now b) }
    ensures attained { IfOk result (IsAttained net.now routes.now hose.now) }
{
    let nodes = net.names.as_slice().len();
    let none = vec![in alloc; 0; nodes]?;
    let tails = least_numbers(alloc, End::Source, nodes, routes, shares, none.as_slice())?;
    let ends = end_shares(alloc, routes, shares)?;
    let sent = hose.sent.as_slice();
    let received = hose.received.as_slice();
    let cover = least_cover(alloc, ends.as_slice(), tails, sent, received)?;
    lowered_from(alloc, nodes, routes, link, shares, cover.heads.as_slice())
}
