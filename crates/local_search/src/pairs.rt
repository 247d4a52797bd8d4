//! The pairs of which a path holds a link, for each link, found in one pass over two routings.
ghost use Rattle.std.specs.Prelude.{◌≡◌, ◌+◌, ◌^◌, ◌<◌, ◌||◌, ◌&&◌, ◌==◌, [], ℕ, All, IfOk, IsTrue, OnOk, length, vec_len};
ghost use Rattle.te_model.specs.Network.{link_count};
ghost use Rattle.te_model.specs.Path.{has_number};
ghost use Rattle.te_model.specs.PathRouting.{IsPathRouting};
ghost use Rattle.local_search.specs.Pairs.{ArePairsOnLinks, HaveLinksBelow, IsPairEntered, IsPairList, pairs_on, some_holds};

use std::alloc::Global;
use std::marker::Model;
use te_model::{Memory, Network, PairRoutes, PathShare};

/// The pairs of which a path holds one link.
#[derive(Drop)]
struct LinkPairs {
    list: Vec<u32>,
}

impl Model for LinkPairs {
    ghost use Rattle.std.specs.Prelude.{ℕ, List};

    ghost Value = { List ℕ };

    ghost view = { λ s. s.list.items };
}

impl LinkPairs {
    /// Enters the pair, which is the last in the list if it is there.
    fn add(&mut self, pair: u32) -> Result<(), Memory>
        requires order { IsPairList (pair + 1) self.old }
        ensures order { OnOk result (IsPairList (pair + 1) self.new) }
        ensures entered { OnOk result ((q : ℕ) → has_number self.new q ≡ (has_number self.old q || pair == q)) }
    {
        let count = self.list.len();
        if count == 0 || self.list[count - 1] != pair {
            self.list.push(pair)?;
        }
        Ok(())
    }
}

/// Enters the pair at each link of one of its paths.
fn add_path(table: &mut [LinkPairs], links: &[u32], pair: u32) -> Result<(), Memory>
    requires links { All (λ h. h < length table.old) links.now }
    requires order { All (IsPairList (pair + 1)) table.old }
    ensures order { OnOk result (All (IsPairList (pair + 1)) table.new) }
    ensures entered { OnOk result (IsPairEntered table.old table.new pair (has_number links.now)) }
{
    for link in links {
        table[*link as usize].add(pair)?;
    }
    Ok(())
}

/// Enters the pair at each link that one of these paths holds.
fn add_pair(table: &mut [LinkPairs], pair: u32, paths: &[PathShare]) -> Result<(), Memory>
    requires links { HaveLinksBelow (length table.old) paths.now }
    requires order { All (IsPairList (pair + 1)) table.old }
    ensures order { OnOk result (All (IsPairList (pair + 1)) table.new) }
    ensures entered { OnOk result (IsPairEntered table.old table.new pair (some_holds paths.now)) }
{
    for path in paths {
        add_path(table, path.links.as_slice(), pair)?;
    }
    Ok(())
}

/// A table that has no pair at any link.
fn empty_table(alloc: Global, links: usize) -> Result<Vec<LinkPairs>, Memory>
    ensures { IfOk result (λ t. (vec_len t ≡ links) × All (λ s. s ≡ []) t.items) }
{
    let mut table = Vec::with_capacity(alloc, links)?;
    'links: for _ in 0..links {
        let list = Vec::new(alloc);
        table.push(LinkPairs { list })?;
    }
    Ok(table)
}

/// Enters each pair at the links that its paths in the two routings hold.
fn add_pairs(
    table: &mut [LinkPairs],
    routes: &[PairRoutes],
    others: &[PairRoutes],
) -> Result<(), Memory>
    requires none { All (λ s. s ≡ []) table.old }
    requires links { All (λ r. HaveLinksBelow (length table.old) r.paths) routes.now }
    requires other_links { All (λ r. HaveLinksBelow (length table.old) r.paths) others.now }
    requires pairs { length others.now ≡ length routes.now }
    requires few { length routes.now < 2 ^ 32 }
    ensures { OnOk result (ArePairsOnLinks (length table.old) routes.now others.now table.new) }
{
    for p in 0..routes.len() {
        let pair = p as u32;
        add_pair(table, pair, routes[p].paths.as_slice())?;
        add_pair(table, pair, others[p].paths.as_slice())?;
    }
    Ok(())
}

/// For each link of a network, the pairs of which a path of one of two routings holds it.
#[derive(Drop)]
pub struct PairsOnLinks {
    table: Vec<LinkPairs>,
}

impl Model for PairsOnLinks {
    ghost use Rattle.std.specs.Prelude.{ℕ, List};

    ghost Value = { List (List ℕ) };

    ghost view = { λ s. s.table.items };
}

impl PairsOnLinks {
    /// The pairs at each link, in one pass over the paths of both routings of the same pairs.
    ///
    /// `Memory` comes where memory is wanting.
    pub fn new(
        alloc: Global,
        net: &Network,
        routes: &[PairRoutes],
        others: &[PairRoutes],
    ) -> Result<PairsOnLinks, Memory>
        requires routes { IsPathRouting net.now routes.now }
        requires others { IsPathRouting net.now others.now }
        requires pairs { length others.now ≡ length routes.now }
        requires few { length routes.now < 2 ^ 32 }
        ensures { IfOk result (ArePairsOnLinks (link_count net.now) routes.now others.now) }
    {
        let mut table = empty_table(alloc, net.links.as_slice().len())?;
        add_pairs(&mut table, routes, others)?;
        Ok(PairsOnLinks { table })
    }

    /// The pairs of which a path holds the link, ascending.
    pub fn on(&self, link: u32) -> &[u32]
        requires { link < length self.now }
        ensures { result.now ≡ pairs_on self.now link }
    {
        self.table[link as usize].list.as_slice()
    }
}
