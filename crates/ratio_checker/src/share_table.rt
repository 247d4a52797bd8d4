//! The share of each pair on each link.
ghost use Rattle.std.specs.Prelude.{◌≡◌, ℕ, ◌+◌, ◌<◌, List, length, slice_index, IfOk, OnOk};
ghost use Rattle.te_model.specs.declared.limits.TheConstants.{FORMAT_2};
ghost use Rattle.te_model.specs.declared.route.PairRoutes.{PairRoutes};
ghost use Rattle.te_model.specs.Network.{link_count};
ghost use Rattle.te_model.specs.Path.{share};
ghost use Rattle.ratio_checker.specs.Checked.{CanCheckHead};
ghost use Rattle.ratio_checker.specs.Shares.{AreSharesOn, HasShares, HasSharesBelow};

use crate::link_pairs::LinkPairs;
use crate::link_shares::{MOST, shares_by_link};
use std::alloc::Global;
use te_model::{Head, Memory};

/// The share of each pair on each link, link after link.
#[derive(Drop)]
pub struct ShareTable {
    links: Vec<LinkPairs>,
}

// Counts a pair on each link on which it has a share.
fn count_pair(counts: &mut [u32], shares: &[u64])
    requires { length shares.now ≡ length counts.old }
    ensures { length counts.new ≡ length counts.old }
{
    for e in 0..shares.len() {
        if shares[e] != 0 {
            counts[e] = counts[e].saturating_add(1);
        }
    }
}

// How many pairs have a share on each link.
fn pair_counts(head: &Head) -> [u32; MOST]
    requires { CanCheckHead head.now }
    ensures { length result ≡ FORMAT_2.links }
{
    let routes = head.routes.as_slice();
    let mut counts = [0; MOST];
    for p in 0..routes.len() {
        let on_links = shares_by_link(routes[p].paths.as_slice());
        count_pair(&mut counts, &on_links);
    }
    counts
}

// A table without pairs, with room for so many on each link.
fn empty_table(alloc: Global, counts: &[u32]) -> Result<Vec<LinkPairs>, Memory>
    ensures { IfOk result (λ table. (routes : List PairRoutes) → HasSharesBelow routes (length counts.now) 0 table.items) }
{
    let mut table = Vec::with_capacity(alloc, counts.len())?;
    for e in 0..counts.len() {
        let pairs = LinkPairs::with_room(alloc, counts[e] as usize)?;
        table.push(pairs)?;
    }
    Ok(table)
}

// Adds the next pair on each link on which it has a share.
fn add_pair(table: &mut Vec<LinkPairs>, p: usize, shares: &[u64]) -> Result<(), Memory>
    requires pair { p < 65536 }
    requires size { length shares.now ≡ length table.old.items }
    requires small { (e : ℕ) → slice_index shares.now e < 4294967296 }
    ensures { (routes : List PairRoutes) → HasSharesBelow routes (length shares.now) p table.old.items →
        ((e : ℕ) → e < length shares.now → slice_index shares.now e ≡ share routes p e) →
        OnOk result (HasSharesBelow routes (length shares.now) (p + 1) table.new.items) }
{
    for e in 0..shares.len() {
        let pairs = &mut table[e];
        pairs.add(p, shares[e])?;
    }
    Ok(())
}

impl ShareTable {
    /// The shares of the pairs of a head. `Memory` comes where memory is wanting: six bytes for each pair on each link on which it has
    /// a share.
    pub fn new(alloc: Global, head: &Head) -> Result<ShareTable, Memory>
        requires { CanCheckHead head.now }
        ensures { IfOk result (HasShares head.now.routes (link_count head.now.network)) }
    {
        let routes = head.routes.as_slice();
        let links = head.network.links.as_slice().len();
        let counts = pair_counts(head);
        let mut table = empty_table(alloc, &counts[..links])?;
        for p in 0..routes.len() {
            let on_links = shares_by_link(routes[p].paths.as_slice());
            add_pair(&mut table, p, &on_links[..links])?;
        }
        Ok(ShareTable { links: table })
    }

    /// The pairs with a share on the link.
    pub fn on(&self, link: u32) -> &LinkPairs
        requires { (routes : List PairRoutes) × (links : ℕ) × HasShares routes links self.now × (link < links) }
        ensures { (routes : List PairRoutes) (links : ℕ) → HasShares routes links self.now → link < links → AreSharesOn routes link result.now }
    {
        &self.links[link as usize]
    }
}
