//! The links of a way.
ghost use Rattle.std.specs.Prelude.{◌≡◌, ℕ, ◌<◌, All, IfOk, IsTrue, length, slice_index};
ghost use Rattle.te_model.specs.Network.{is_well_formed, link_count, node_count};
ghost use Rattle.centred_steps.specs.Loads.{AreSmall};
ghost use Rattle.centred_steps.specs.Ways.{AreLastLinks, way_to};

use centred_steps::add_load;
use std::alloc::Global;
use te_model::{Memory, Network};

/// The links of the way to the node, from its end back.
pub fn links_to(
    alloc: Global,
    net: &Network,
    lasts: &[Option<u32>],
    dst: u32,
) -> Result<Vec<u32>, Memory>
    requires network { IsTrue (is_well_formed net.now) }
    requires lasts { AreLastLinks net.now lasts.now }
    requires dst { dst < node_count net.now }
    ensures way { IfOk result (λ l. l.items ≡ way_to net.now lasts.now (length lasts.now) dst) }
    ensures inside { IfOk result (λ l. All (λ h. h < link_count net.now) l.items) }
{
    let links = net.links.as_slice();
    let mut way = Vec::new(alloc);
    let mut node = dst;
    for _ in 0..lasts.len() {
        match lasts[node as usize] {
            Some(h) => {
                way.push(h)?;
                node = links[h as usize].tail;
            }
            None => return Ok(way),
        }
    }
    Ok(way)
}

/// Adds the amount to the load of each of the links.
pub fn add_load_on(links: &[u32], amount: u128, loads: &mut [u128])
    requires links { All (λ h. h < length loads.old) links.now }
    requires loads { AreSmall loads.old }
    ensures { AreSmall loads.new }
{
    for link in links {
        add_load(loads, *link as usize, amount);
    }
}
