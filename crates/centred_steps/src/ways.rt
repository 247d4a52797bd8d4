//! The least ways from a node, by the links with which they end, and what they put on links.
ghost use Rattle.std.specs.Prelude.{◌≡◌, ℕ, ◌+◌, ◌*◌, ◌^◌, ◌<◌, ◌≤◌, IsTrue, length, min, slice_index};
ghost use Rattle.te_model.specs.Network.{is_well_formed, link_count, node_count};
ghost use Rattle.centred_steps.specs.Loads.{AreSmall, times_on};
ghost use Rattle.centred_steps.specs.Ways.{AreLastLinks, least_capacity, way_to};

use crate::loads::add_load;
use shortest_path::is_sum;
use te_model::Network;

/// The capacity above which no link has one.
const MAX_CAPACITY: u64 = 1 << 32;

/// Takes away every link.
fn forget(net: &Network, lasts: &mut [Option<u32>])
    requires { length lasts.old ≡ node_count net.now }
    ensures { AreLastLinks net.now lasts.new }
{
    for last in lasts.iter_mut() {
        *last = None;
    }
}

/// Writes for each node a link with which a least way to it ends, by the distances from a node: `None` for that node and for
/// those that are out of reach.
///
/// `weights` has one number of 1 and more for each link, and `lasts` is room for a link of each node. Takes no memory.
pub fn last_links(
    net: &Network,
    weights: &[u64],
    distances: &[Option<u64>],
    lasts: &mut [Option<u32>],
)
    requires network { IsTrue (is_well_formed net.now) }
    requires weights { length weights.now ≡ link_count net.now }
    requires distances { length distances.now ≡ node_count net.now }
    requires room { length lasts.old ≡ node_count net.now }
    ensures { AreLastLinks net.now lasts.new }
{
    forget(net, lasts);
    let links = net.links.as_slice();
    for h in 0..links.len() {
        let (tail, head) = (links[h].tail as usize, links[h].head as usize);
        if is_sum(distances[head], distances[tail], weights[h]) {
            lasts[head] = Some(h as u32);
        }
    }
}

/// The least capacity on the way to the node, and 2^32 where there is no link on it. Takes no memory.
pub fn narrowest_on(net: &Network, lasts: &[Option<u32>], dst: u32) -> u64
    requires network { IsTrue (is_well_formed net.now) }
    requires lasts { AreLastLinks net.now lasts.now }
    requires dst { dst < node_count net.now }
    ensures small { result ≤ 2 ^ 32 }
    ensures least { result ≡ least_capacity net.now (way_to net.now lasts.now (length lasts.now) dst) }
{
    let links = net.links.as_slice();
    let mut least = MAX_CAPACITY;
    let mut node = dst;
    for _ in 0..lasts.len() {
        match lasts[node as usize] {
            Some(h) => {
                least = least.min(links[h as usize].capacity);
                node = links[h as usize].tail;
            }
            None => return least,
        }
    }
    least
}

/// Adds the amount to the loads of the links on the way to the node. Takes no memory.
pub fn add_load_along(
    net: &Network,
    lasts: &[Option<u32>],
    dst: u32,
    amount: u128,
    loads: &mut [u128],
)
    requires network { IsTrue (is_well_formed net.now) }
    requires lasts { AreLastLinks net.now lasts.now }
    requires dst { dst < node_count net.now }
    requires count { length loads.old ≡ link_count net.now }
    requires loads { AreSmall loads.old }
    ensures small { AreSmall loads.new }
    ensures added { (e : ℕ) → e < length loads.old →
        slice_index loads.new e ≡ min (2 ^ 66) (slice_index loads.old e + amount * times_on (way_to net.now lasts.now (length lasts.now) dst) e) }
{
    let links = net.links.as_slice();
    let mut node = dst;
    for _ in 0..lasts.len() {
        match lasts[node as usize] {
            Some(h) => {
                add_load(loads, h as usize, amount);
                node = links[h as usize].tail;
            }
            None => return,
        }
    }
}
