//! The bypass path of each link.
ghost use Rattle.std.specs.Prelude.{◌≡◌, ◌<◌, IfOk, IsTrue, length, map};
ghost use Rattle.te_model.specs.Network.{is_well_formed, link_count};
ghost use Rattle.shortest_path.specs.Costs.{HasCosts};
ghost use Rattle.shortest_path.specs.Least.{links_of};
ghost use Rattle.local_recovery.specs.Recovery.{open_links, IsBypassPath, AreBypassPaths};

use crate::marks::{has_failed, open_links};
use shortest_path::{costs, least_walk};
use std::alloc::Global;
use te_model::{Items, Memory, Network, Path};

/// The bypass path of a link: itself, or where it has failed the least path by cost between its ends
/// over open links, if there is one.
fn bypass_path(
    alloc: Global,
    net: &Network,
    failed: &[bool],
    costs: &[u64],
    open: &[bool],
    link: u32,
) -> Result<Option<Path>, Memory>
    requires network { IsTrue (is_well_formed net.now) }
    requires marks { length failed.now ≡ link_count net.now }
    requires costs { HasCosts net.now costs.now }
    requires open_marks { «open».now ≡ open_links failed.now }
    requires link { link < link_count net.now }
    ensures { IfOk result (λ p. IsBypassPath net.now failed.now link (links_of p)) }
{
    if has_failed(failed, link) {
        let ends = net.links.as_slice()[link as usize];
        least_walk(alloc, net, costs, open, ends.tail, ends.head)
    } else {
        let links = vec![in alloc; link]?;
        Ok(Some(Path {
            links: Items::new(links),
        }))
    }
}

/// The bypass path of each link.
pub fn bypass_paths(
    alloc: Global,
    net: &Network,
    failed: &[bool],
) -> Result<Vec<Option<Path>>, Memory>
    requires network { IsTrue (is_well_formed net.now) }
    requires marks { length failed.now ≡ link_count net.now }
    ensures { IfOk result (λ v. AreBypassPaths net.now failed.now (map links_of v.items)) }
{
    let costs = costs(alloc, net)?;
    let open = open_links(alloc, failed)?;
    let mut list = Vec::new(alloc);
    for link in 0..net.links.as_slice().len() {
        list.push(bypass_path(alloc, net, failed, &costs, &open, link as u32)?)?;
    }
    Ok(list)
}
