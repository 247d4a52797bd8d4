//! The least sums of costs to one node over open links, from those over all links and by rounds over the links that leave the other nodes (Bellman, 1958).
ghost use Rattle.std.specs.Prelude.{◌≡◌, ◌+◌, ◌*◌, ◌^◌, ◌<◌, ◌≤◌, ℕ, All, IfOk, MatchBool, MatchOption, Some, false, length};
ghost use Rattle.te_model.specs.declared.limits.TheConstants.{FORMAT_2};
ghost use Rattle.te_model.specs.Network.{link_count, node_count};
ghost use Rattle.shortest_path.specs.Graph.{AtMost, distance_at};
ghost use Rattle.shortest_path.specs.Least.{AreLeastSums};
ghost use Rattle.shortest_path.specs.Links.{HasSoundLinks};
ghost use Rattle.shortest_path.specs.Ways.{AreWays};
ghost use Rattle.k_paths.specs.Sums.{AreOpenSums, AreWalkSums, HasUnsummed, IsOpenSum, IsTaut};

use shortest_path::{Ways, toward};
use std::alloc::Global;
use te_model::{Memory, Network};

/// Whether the sum is unknown or above `reach`.
fn is_above(sum: Option<u64>, reach: u64) -> bool
    ensures { MatchBool result (AtMost sum reach → ⊥) (AtMost sum reach) }
{
    match sum {
        None => true,
        Some(d) => reach < d,
    }
}

/// The sum over a link, if it is less than that at the link's tail.
fn lesser_sum(at_tail: Option<u64>, at_head: Option<u64>, cost: u64) -> Option<u64>
    requires cost { cost ≤ 65535 }
    requires small { (y : ℕ) → at_head ≡ Some y → y ≤ 2 ^ 41 }
    ensures { MatchOption result ((y : ℕ) → at_head ≡ Some y → AtMost at_tail (cost + y)) (λ d. (y : ℕ) × (at_head ≡ Some y) × (d ≡ cost + y) × (AtMost at_tail d → ⊥)) }
{
    match at_head {
        Some(rest) if is_above(at_tail, cost + rest) => Some(cost + rest),
        _ => None,
    }
}

/// The least sum over all links from the node, where the least way from it is open.
fn open_sum(net: &Network, ways: &Ways, open: &[bool], src: u32) -> Option<u64>
    requires sound { HasSoundLinks net.now }
    requires ways { AreWays net.now ways.now }
    requires marks { length «open».now ≡ link_count net.now }
    requires src { src < node_count net.now }
    ensures { (d : ℕ) → result ≡ Some d → IsOpenSum net.now ways.now «open».now src d }
{
    let all = ways.sums.as_slice();
    if all[src as usize].is_none() {
        return None;
    }
    let links = net.links.as_slice();
    let firsts = ways.firsts.as_slice();
    let mut node = src;
    while node != ways.dst {
        match firsts[node as usize] {
            None => return None,
            Some(h) => {
                if !open[h as usize] {
                    return None;
                }
                node = links[h as usize].head;
            }
        }
    }
    all[src as usize]
}

/// The least sums over all links from the nodes whose least way is open, and none from the others.
fn open_sums(
    alloc: Global,
    net: &Network,
    ways: &Ways,
    open: &[bool],
) -> Result<Vec<Option<u64>>, Memory>
    requires sound { HasSoundLinks net.now }
    requires ways { AreWays net.now ways.now }
    requires marks { length «open».now ≡ link_count net.now }
    ensures { IfOk result (λ s. AreOpenSums net.now ways.now «open».now s.items) }
{
    let nodes = ways.sums.as_slice().len();
    let mut sums: Vec<Option<u64>> = Vec::with_capacity(alloc, nodes)?;
    for v in 0..nodes {
        sums.push(open_sum(net, ways, open, v as u32))?;
    }
    sums[ways.dst as usize] = Some(0);
    Ok(sums)
}

/// The links that leave nodes without a sum.
fn unsummed(alloc: Global, net: &Network, sums: &[Option<u64>]) -> Result<Vec<u32>, Memory>
    requires sound { HasSoundLinks net.now }
    requires count { length sums.now ≡ node_count net.now }
    ensures few { IfOk result (λ l. length l.items ≤ link_count net.now) }
    ensures links { IfOk result (λ l. All (λ h. h < link_count net.now) l.items) }
    ensures has { IfOk result (λ l. HasUnsummed net.now sums.now l.items) }
{
    let links = net.links.as_slice();
    let mut list = Vec::new(alloc);
    for h in 0..links.len() {
        if sums[links[h].tail as usize].is_none() {
            list.push(h as u32)?;
        }
    }
    Ok(list)
}

/// Lowers the sums at the tails of those of the links that are open to the sums over them, and says
/// whether one fell.
fn lower(
    net: &Network,
    costs: &[u64],
    open: &[bool],
    among: &[u32],
    dst: u32,
    sums: &mut [Option<u64>],
) -> bool
    requires sound { HasSoundLinks net.now }
    requires costs { length costs.now ≡ link_count net.now }
    requires marks { length «open».now ≡ link_count net.now }
    requires limit { All (λ c. c ≤ 65535) costs.now }
    requires among { All (λ h. h < link_count net.now) among.now }
    requires few { length among.now ≤ link_count net.now }
    requires sums { AreWalkSums net.now costs.now «open».now dst (2 ^ 40) sums.old }
    ensures sums { (n : ℕ) → AreWalkSums net.now costs.now «open».now dst n sums.old → AreWalkSums net.now costs.now «open».now dst (n + 65535 * FORMAT_2.links) sums.new }
    ensures falls { (v x : ℕ) → AtMost (distance_at sums.old v) x → AtMost (distance_at sums.new v) x }
    ensures taut { result ≡ false → All (IsTaut net.now costs.now «open».now sums.new) among.now }
{
    let links = net.links.as_slice();
    let mut fell = false;
    for link in among {
        let h = *link as usize;
        let (tail, head) = (links[h].tail as usize, links[h].head as usize);
        if open[h] {
            if let Some(sum) = lesser_sum(sums[tail], sums[head], costs[h]) {
                sums[tail] = Some(sum);
                fell = true;
            }
        }
    }
    fell
}

/// The least sum of costs from each node to the destination over the open links, or `None` where no walk leads there.
pub fn least_sums(
    alloc: Global,
    net: &Network,
    ways: &Ways,
    open: &[bool],
) -> Result<Vec<Option<u64>>, Memory>
    requires sound { HasSoundLinks net.now }
    requires ways { AreWays net.now ways.now }
    requires marks { length «open».now ≡ link_count net.now }
    ensures { IfOk result (λ d. AreLeastSums net.now ways.now.costs «open».now ways.now.dst d.items) }
{
    let costs = ways.costs.as_slice();
    let mut sums = open_sums(alloc, net, ways, open)?;
    let among = unsummed(alloc, net, &sums)?;
    for _round in 0..net.names.as_slice().len() {
        if !lower(net, costs, open, &among, ways.dst, &mut sums) {
            return Ok(sums);
        }
    }
    // A least walk has fewer links than there are nodes, so the rounds are enough.
    let sums = toward(alloc, net, costs, open, ways.dst)?;
    Ok(sums)
}
