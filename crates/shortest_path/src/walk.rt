//! The least walk between two nodes over the open links of a network.
ghost use Rattle.std.specs.Prelude.{◌≡◌, ℕ, ◌^◌, ◌<◌, ◌≤◌, ◌&&◌, Bool, IfOk, All, List, MatchOption, None, Some, length};
ghost use Rattle.te_model.specs.Network.{link_count, node_count};
ghost use Rattle.shortest_path.specs.Links.{HasSoundLinks};
ghost use Rattle.shortest_path.specs.Least.{links_of, AreFirstLinks, AreLeastSums, IsLeastWalk, LeadsTo, is_sum};

use crate::length::is_sum;
use crate::rows::Direction;
use crate::searches::Searches;
use std::alloc::Global;
use te_model::{Items, Memory, Network, Path};

/// The least sum of lengths from each node to `dst` over the open links, or `None` where no walk leads there.
///
/// `open` and `lengths` have one entry for each link. `Memory` comes where memory is wanting.
pub fn toward(
    alloc: Global,
    net: &Network,
    lengths: &[u64],
    open: &[bool],
    dst: u32,
) -> Result<Vec<Option<u64>>, Memory>
    requires sound { HasSoundLinks net.now }
    requires lengths { length lengths.now ≡ link_count net.now }
    requires marks { length «open».now ≡ link_count net.now }
    requires limit { All (λ l. l ≤ 2 ^ 28) lengths.now }
    requires dst { dst < node_count net.now }
    ensures { IfOk result (λ d. AreLeastSums net.now lengths.now «open».now dst d.items) }
{
    let mut searches = Searches::new(alloc, net, Direction::Backward)?;
    let mut sums = vec![in alloc; None; net.names.as_slice().len()]?;
    searches.toward(net, lengths, open, dst, &mut sums);
    Ok(sums)
}

/// Whether the link is open, and the first distance is the second and the link's length.
fn is_tight(open: bool, from: Option<u64>, to: Option<u64>, length: u64) -> bool
    ensures { result ≡ («open» && is_sum from to length) }
{
    open && is_sum(from, to, length)
}

/// For each node the first open link with which a least walk from it begins, or `None` where none does.
///
/// `open` and `lengths` have one entry for each link, and `sums` are those that `toward` gives. `Memory` comes where memory is wanting.
pub fn first_links(
    alloc: Global,
    net: &Network,
    lengths: &[u64],
    open: &[bool],
    sums: &[Option<u64>],
) -> Result<Vec<Option<u32>>, Memory>
    requires sound { HasSoundLinks net.now }
    requires lengths { length lengths.now ≡ link_count net.now }
    requires marks { length «open».now ≡ link_count net.now }
    requires sums { length sums.now ≡ node_count net.now }
    ensures { IfOk result (λ f. AreFirstLinks net.now lengths.now «open».now sums.now (link_count net.now) f.items) }
{
    let links = net.links.as_slice();
    let mut firsts: Vec<Option<u32>> = vec![in alloc; None; sums.len()]?;
    for h in 0..links.len() {
        let (tail, head) = (links[h].tail as usize, links[h].head as usize);
        if firsts[tail].is_none() && is_tight(open[h], sums[tail], sums[head], lengths[h]) {
            firsts[tail] = Some(h as u32);
        }
    }
    Ok(firsts)
}

/// The least walk from `src` to `dst` along the first links, or `None` where there is no walk.
///
/// `sums` are those that `toward` gives for `dst`, and `firsts` those that `first_links` gives for them. `Memory` comes
/// where memory is wanting.
pub fn walk_along(
    alloc: Global,
    net: &Network,
    sums: &[Option<u64>],
    firsts: &[Option<u32>],
    src: u32,
    dst: u32,
) -> Result<Option<Vec<u32>>, Memory>
    requires sound { HasSoundLinks net.now }
    requires leads { (lengths : List ℕ) × (marks : List Bool) × LeadsTo net.now lengths marks dst sums.now firsts.now }
    requires src { src < node_count net.now }
    ensures { (lengths : List ℕ) → (marks : List Bool) → LeadsTo net.now lengths marks dst sums.now firsts.now → IfOk result (λ w. MatchOption w (IsLeastWalk net.now lengths marks src dst None) (λ v. IsLeastWalk net.now lengths marks src dst (Some v.items))) }
{
    if sums[src as usize].is_none() {
        return Ok(None);
    }
    let links = net.links.as_slice();
    let mut walk: Vec<u32> = Vec::new(alloc);
    let mut node = src;
    while node != dst {
        match firsts[node as usize] {
            Some(h) => {
                walk.push(h)?;
                node = links[h as usize].head;
            }
            None => return Ok(None),
        }
    }
    Ok(Some(walk))
}

/// The least walk from `src` to `dst` over the open links by the sum of lengths, then by the list of
/// links, or `None` where there is no walk. `distances` are those that `toward` gives for `dst`.
pub fn follow(
    alloc: Global,
    net: &Network,
    lengths: &[u64],
    open: &[bool],
    distances: &[Option<u64>],
    src: u32,
    dst: u32,
) -> Result<Option<Path>, Memory>
    requires sound { HasSoundLinks net.now }
    requires lengths { length lengths.now ≡ link_count net.now }
    requires marks { length «open».now ≡ link_count net.now }
    requires positive { All (λ l. 1 ≤ l) lengths.now }
    requires distances { AreLeastSums net.now lengths.now «open».now dst distances.now }
    requires src { src < node_count net.now }
    requires dst { dst < node_count net.now }
    ensures { IfOk result (λ p. IsLeastWalk net.now lengths.now «open».now src dst (links_of p)) }
{
    let firsts = first_links(alloc, net, lengths, open, distances)?;
    match walk_along(alloc, net, distances, &firsts, src, dst)? {
        Some(walk) => Ok(Some(Path {
            links: Items::new(walk),
        })),
        None => Ok(None),
    }
}

/// The least walk from `src` to `dst` over the open links by the sum of lengths, then by the list of
/// links, or `None` where there is no walk.
///
/// `open` and `lengths` have one entry for each link. `Memory` comes where memory is wanting.
pub fn least_walk(
    alloc: Global,
    net: &Network,
    lengths: &[u64],
    open: &[bool],
    src: u32,
    dst: u32,
) -> Result<Option<Path>, Memory>
    requires sound { HasSoundLinks net.now }
    requires lengths { length lengths.now ≡ link_count net.now }
    requires marks { length «open».now ≡ link_count net.now }
    requires limit { All (λ l. l ≤ 2 ^ 28) lengths.now }
    requires positive { All (λ l. 1 ≤ l) lengths.now }
    requires src { src < node_count net.now }
    requires dst { dst < node_count net.now }
    ensures { IfOk result (λ p. IsLeastWalk net.now lengths.now «open».now src dst (links_of p)) }
{
    let distances = toward(alloc, net, lengths, open, dst)?;
    follow(alloc, net, lengths, open, &distances, src, dst)
}
