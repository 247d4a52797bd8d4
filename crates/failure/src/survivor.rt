//! The network that failures leave.

ghost use Rattle.std.specs.Prelude.{◌≡◌, ◌≤◌, ◌<◌, All, IfOk, IsTrue, length, map};
ghost use Rattle.te_model.specs.declared.limits.TheConstants.{FORMAT_2};
ghost use Rattle.te_model.specs.Network.{is_well_formed, link_at, link_count};
ghost use Rattle.failure.specs.Survivor.{surviving_links, survivor_of};

use std::alloc::Global;
use te_model::{Items, Link, Memory, Network, copy_names};

/// The nodes and the links that have not failed, and for each of these links its number in the network before.
#[derive(Drop)]
pub struct Survivor {
    pub network: Network,
    pub origin: Items<u32>,
}

/// The network without its failed links, where `failed` has one mark for each link.
///
/// All nodes stay, and the links that stay keep their order; there may be none. The network that is left is well formed.
pub fn surviving(alloc: Global, net: &Network, failed: &[bool]) -> Result<Survivor, Memory>
    requires network { IsTrue (is_well_formed net.now) }
    requires marks { length failed.now ≡ link_count net.now }
    ensures survivor { IfOk result (λ s. s ≡ survivor_of net.now failed.now) }
    ensures well_formed { IfOk result (λ s. IsTrue (is_well_formed s.network)) }
{
    let origin = surviving_links(alloc, failed)?;
    let links = links_at(alloc, net, origin.as_slice())?;
    Ok(Survivor {
        network: Network {
            names: copy_names(alloc, net.names.as_slice())?,
            links: Items::new(links),
        },
        origin: Items::new(origin),
    })
}

// The numbers of the links that have not failed.
fn surviving_links(alloc: Global, failed: &[bool]) -> Result<Vec<u32>, Memory>
    requires { length failed.now ≤ FORMAT_2.links }
    ensures { IfOk result (λ v. v.items ≡ surviving_links failed.now) }
{
    let mut origin = Vec::new(alloc);
    for link in 0..failed.len() {
        if !failed[link] {
            origin.push(link as u32)?;
        }
    }
    Ok(origin)
}

// The links of these numbers.
fn links_at(alloc: Global, net: &Network, numbers: &[u32]) -> Result<Vec<Link>, Memory>
    requires { All (λ h. h < link_count net.now) numbers.now }
    ensures { IfOk result (λ v. v.items ≡ map (link_at net.now) numbers.now) }
{
    let links = net.links.as_slice();
    let mut kept = Vec::new(alloc);
    for number in numbers {
        kept.push(links[*number as usize])?;
    }
    Ok(kept)
}
