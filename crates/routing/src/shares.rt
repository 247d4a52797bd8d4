//! The pairs that have a share on a link, for each link, found in one pass over a routing.
ghost use Rattle.std.specs.Prelude.{◌≡◌, ◌+◌, ◌^◌, ◌<◌, ◌≤◌, ◌==◌, [], ℕ, All, IfOk, OnOk, length, if◌then◌else◌, vec_len};
ghost use Rattle.te_model.specs.Path.{weight_on, amount_on};
ghost use Rattle.te_model.specs.PathRouting.{IsPathRouting};
ghost use Rattle.te_model.specs.declared.units.TheConstants.{SHARE_UNIT};
ghost use Rattle.routing.specs.Shares.{share_in, shares_on, AreLinksOnce, AreShares, IsAddition, IsShareList};
ghost use Rattle.routing.specs.Split.{total_weight};

use crate::routes::Routing;
use std::alloc::Global;
use std::marker::Model;
use te_model::{Memory, Network, PathShare};

/// A pair, and its share on a link.
#[derive(Clone, Copy, PartialEq, Eq)]
pub struct PairShare {
    /// The number of the pair.
    pub pair: u32,
    /// In millionths of the pair's demand.
    pub share: u64,
}

/// The pairs that have a share on one link.
#[derive(Drop)]
struct LinkShares {
    list: Vec<PairShare>,
}

impl Model for LinkShares {
    ghost use Rattle.std.specs.Prelude.{List};
    ghost use Rattle.routing.specs.declared.shares.PairShare.{PairShare};

    ghost Value = { List PairShare };

    ghost view = { λ s. s.list.items };
}

impl LinkShares {
    /// Adds the share of a path of the pair, which is the last in the list if it is there.
    fn add(&mut self, pair: u32, share: u64) -> Result<(), Memory>
        requires order { IsShareList (pair + 1) self.old }
        requires some { 0 < share }
        requires room { share_in self.old pair + share < 2 ^ 64 }
        ensures order { OnOk result (IsShareList (pair + 1) self.new) }
        ensures sums { OnOk result ((q : ℕ) → share_in self.new q ≡ share_in self.old q + (if pair == q then share else 0)) }
    {
        let count = self.list.len();
        if count > 0 && self.list[count - 1].pair == pair {
            self.list[count - 1].share += share;
        } else {
            self.list.push(PairShare { pair, share })?;
        }
        Ok(())
    }
}

/// Adds a path of the pair, which holds each of its links once.
fn add_path(table: &mut [LinkShares], links: &[u32], pair: u32, share: u64) -> Result<(), Memory>
    requires links { AreLinksOnce (length table.old) links.now }
    requires order { All (IsShareList (pair + 1)) table.old }
    requires some { 0 < share }
    requires room { (e : ℕ) → e < length table.old → share_in (shares_on table.old e) pair + share < 2 ^ 64 }
    ensures order { OnOk result (All (IsShareList (pair + 1)) table.new) }
    ensures sums { OnOk result (IsAddition table.old table.new pair (amount_on links.now share)) }
{
    for link in links {
        table[*link as usize].add(pair, share)?;
    }
    Ok(())
}

/// Adds the paths of the pair, of which the table has none yet.
fn add_pair(table: &mut [LinkShares], pair: u32, paths: &[PathShare]) -> Result<(), Memory>
    requires links { All (λ s. AreLinksOnce (length table.old) s.links) paths.now }
    requires some { All (λ s. 1 ≤ s.weight) paths.now }
    requires whole { total_weight paths.now ≤ SHARE_UNIT }
    requires order { All (IsShareList (pair + 1)) table.old }
    requires none { (e : ℕ) → e < length table.old → share_in (shares_on table.old e) pair ≡ 0 }
    ensures order { OnOk result (All (IsShareList (pair + 1)) table.new) }
    ensures sums { OnOk result (IsAddition table.old table.new pair (weight_on paths.now)) }
{
    for path in paths {
        add_path(table, path.links.as_slice(), pair, path.weight)?;
    }
    Ok(())
}

/// A table on whose links no pair has a share.
fn empty_table(alloc: Global, links: usize) -> Result<Vec<LinkShares>, Memory>
    ensures { IfOk result (λ t. (vec_len t ≡ links) × All (λ s. s ≡ []) t.items) }
{
    let mut table = Vec::with_capacity(alloc, links)?;
    for _ in 0..links {
        let list = Vec::new(alloc);
        table.push(LinkShares { list })?;
    }
    Ok(table)
}

/// The pairs that have a share on each link of a network, under a routing.
#[derive(Drop)]
pub struct Shares {
    table: Vec<LinkShares>,
}

impl Model for Shares {
    ghost use Rattle.std.specs.Prelude.{List};
    ghost use Rattle.routing.specs.declared.shares.PairShare.{PairShare};

    ghost Value = { List (List PairShare) };

    ghost view = { λ s. s.table.items };
}

impl Shares {
    /// The shares of the routing on each link, in one pass over its paths. `Memory` comes where
    /// memory is wanting.
    pub fn new(alloc: Global, net: &Network, routing: &Routing) -> Result<Shares, Memory>
        requires routing { IsPathRouting net.now routing.now.routes }
        requires few { length routing.now.routes < 2 ^ 32 }
        ensures { IfOk result (AreShares net.now routing.now.routes) }
    {
        let routes = routing.routes.as_slice();
        let mut table = empty_table(alloc, net.links.as_slice().len())?;
        for p in 0..routes.len() {
            add_pair(&mut table, p as u32, routes[p].paths.as_slice())?;
        }
        Ok(Shares { table })
    }

    /// The pairs whose share on the link is above 0, ascending, each with its share. Takes no memory.
    pub fn on(&self, link: u32) -> &[PairShare]
        requires { link < length self.now }
        ensures { result.now ≡ shares_on self.now link }
    {
        self.table[link as usize].list.as_slice()
    }
}
