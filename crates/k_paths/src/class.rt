//! The least paths of classes, and the splitting of a class into classes with bounds.
ghost use Rattle.std.specs.Prelude.{if◌then◌else◌, [], ◌≡◌, ◌<◌, ◌≤◌, ◌++◌, ◌∷◌, IfOk, IsTrue, OnOk, length, take};
ghost use Rattle.te_model.specs.Network.{node_count};
ghost use Rattle.te_model.specs.Path.{is_path};
ghost use Rattle.shortest_path.specs.Links.{HasSoundLinks};
ghost use Rattle.k_paths.specs.Classes.{IsLeastIn, IsPrefix, excluded_at};
ghost use Rattle.k_paths.specs.Outgoing.{AreOutgoing};
ghost use Rattle.k_paths.specs.Search.{IsBounded, IsClassOf, IsLeastCandidate, Splits};
ghost use Rattle.shortest_path.specs.Ways.{AreWays};

use crate::candidate::{BoundedClass, Candidate};
use crate::direct::{first_link, meets};
use crate::marks::class_marks;
use crate::outgoing::Outgoing;
use crate::sums::least_sums;
use shortest_path::{Ways, follow, length_along, way_from};
use std::alloc::Global;
use te_model::{Items, Memory, Network};

/// The least path of those that begin with the prefix and go on from the node with a link that is not
/// excluded, by a search over the links that these leave open.
fn detour(
    alloc: Global,
    net: &Network,
    ways: &Ways,
    src: u32,
    prefix: &[u32],
    excluded: &[u32],
    node: u32,
) -> Result<Option<Vec<u32>>, Memory>
    requires sound { HasSoundLinks net.now }
    requires ways { AreWays net.now ways.now }
    requires node { node < node_count net.now }
    requires prefix { IsPrefix net.now src ways.now.dst node prefix.now }
    ensures { IfOk result (IsLeastIn net.now src ways.now.dst prefix.now excluded.now) }
{
    let marks = class_marks(alloc, net, src, prefix, excluded, node)?;
    let costs = ways.costs.as_slice();
    let sums = least_sums(alloc, net, ways, &marks)?;
    match follow(alloc, net, costs, &marks, &sums, node, ways.dst)? {
        None => Ok(None),
        Some(rest) => {
            let mut found = Vec::from_slice(alloc, prefix)?;
            found.extend_from_slice(rest.links.as_slice())?;
            Ok(Some(found))
        }
    }
}

/// The first links of a path, and a link and a way after them.
fn join_links(alloc: Global, prefix: &[u32], first: u32, way: &[u32]) -> Result<Vec<u32>, Memory>
    ensures { IfOk result (λ l. l.items ≡ prefix.now ++ first ∷ way.now) }
{
    let mut links = Vec::from_slice(alloc, prefix)?;
    links.push(first)?;
    links.extend_from_slice(way)?;
    Ok(links)
}

/// The least path of the class.
///
/// It goes on along the least way over all links, where this meets none of the first nodes.
pub fn least_of(
    alloc: Global,
    net: &Network,
    ways: &Ways,
    src: u32,
    class: &BoundedClass,
) -> Result<Option<Vec<u32>>, Memory>
    requires sound { HasSoundLinks net.now }
    requires ways { AreWays net.now ways.now }
    requires class { IsBounded net.now src ways.now class.now }
    ensures { IfOk result (IsLeastIn net.now src ways.now.dst class.now.prefix class.now.excluded) }
{
    let all = net.links.as_slice();
    let link = all[class.first as usize];
    let prefix = class.prefix.as_slice();
    match way_from(alloc, net, ways, link.head)? {
        Some(way) if !meets(all, src, prefix, &way) => {
            let found = join_links(alloc, prefix, class.first, &way)?;
            Ok(Some(found))
        }
        _ => detour(
            alloc,
            net,
            ways,
            src,
            prefix,
            class.excluded.as_slice(),
            link.tail,
        ),
    }
}

/// The links that are still excluded at the place where the class begins, and none elsewhere.
fn still_excluded(excluded: &[u32], is_first: bool) -> &[u32]
    ensures { result.now ≡ (if is_first then excluded.now else []) }
{
    if is_first { excluded } else { &excluded[..0] }
}

/// What is excluded for the paths that leave the links at a place.
fn excluded_at_place(
    alloc: Global,
    links: &[u32],
    fixed: usize,
    excluded: &[u32],
    place: usize,
) -> Result<Vec<u32>, Memory>
    requires { place < length links.now }
    ensures { IfOk result (λ b. b.items ≡ excluded_at links.now fixed excluded.now place) }
{
    let mut list = Vec::from_slice(alloc, still_excluded(excluded, place == fixed))?;
    list.push(links[place])?;
    Ok(list)
}

/// The class of the paths that leave the links at a place over a link that is not excluded, or `None`
/// where there is no such path.
fn class_at(
    alloc: Global,
    net: &Network,
    ways: &Ways,
    outgoing: &Outgoing,
    src: u32,
    links: &[u32],
    place: usize,
    excluded: Vec<u32>,
) -> Result<Option<BoundedClass>, Memory>
    requires sound { HasSoundLinks net.now }
    requires ways { AreWays net.now ways.now }
    requires outgoing { AreOutgoing net.now outgoing.now }
    requires path { IsTrue (is_path net.now src ways.now.dst links.now) }
    requires inside { place < length links.now }
    ensures { IfOk result (IsClassOf net.now src ways.now (take place links.now) excluded.items) }
{
    let prefix = &links[..place];
    let all = net.links.as_slice();
    let node = all[links[place] as usize].tail;
    match first_link(net, ways, outgoing, src, prefix, &excluded, node) {
        None => Ok(None),
        Some((first, sum)) => {
            let bound = length_along(ways.costs.as_slice(), prefix) + sum;
            let prefix = Items::new(Vec::from_slice(alloc, prefix)?);
            let excluded = Items::new(excluded);
            Ok(Some(BoundedClass {
                prefix,
                excluded,
                first,
                bound,
            }))
        }
    }
}

/// Adds classes of all paths of a candidate's class but its least.
pub fn split(
    alloc: Global,
    net: &Network,
    ways: &Ways,
    outgoing: &Outgoing,
    src: u32,
    class: &Candidate,
    bounded: &mut Vec<BoundedClass>,
) -> Result<(), Memory>
    requires sound { HasSoundLinks net.now }
    requires ways { AreWays net.now ways.now }
    requires outgoing { AreOutgoing net.now outgoing.now }
    requires least { IsLeastCandidate net.now src ways.now.dst class.now }
    ensures { OnOk result (Splits net.now src ways.now class.now bounded.old.items bounded.new.items) }
{
    let links = class.links.as_slice();
    for place in class.fixed..links.len() {
        let excluded = excluded_at_place(
            alloc,
            links,
            class.fixed,
            class.excluded.as_slice(),
            place,
        )?;
        match class_at(alloc, net, ways, outgoing, src, links, place, excluded)? {
            Some(part) => bounded.push(part)?,
            None => {}
        }
    }
    Ok(())
}
