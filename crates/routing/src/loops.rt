//! Walks without their loops.
ghost use Rattle.std.specs.Prelude.{◌≡◌, ◌<◌, IfOk, IsTrue, OnOk, All, length};
ghost use Rattle.te_model.specs.Network.{link_count, node_count};
ghost use Rattle.te_model.specs.Path.{chains, is_path};
ghost use Rattle.routing.specs.Loops.{after_last, end_of, IsCut};

use std::alloc::Global;
use te_model::{Memory, Network};

/// What follows the last visit of the node in a walk that begins there.
fn after_last<'a>(net: &Network, node: u32, walk: &'a [u32]) -> &'a [u32]
    requires { All (λ h. h < link_count net.now) walk.now }
    ensures { result.now ≡ after_last net.now node walk.now }
{
    let links = net.links.as_slice();
    for i in (0..walk.len()).rev() {
        if links[walk[i] as usize].head == node {
            return &walk[i + 1..];
        }
    }
    walk
}

/// Puts the walk from `src` without its loops into `cut`, in place of what was there: from each node that is reached it
/// goes on at that node's last visit in the walk. So it visits no node twice, and ends where the walk ends.
///
/// `Memory` comes where memory is wanting; then `cut` has some of its links.
pub fn cut_loops_into(
    net: &Network,
    src: u32,
    walk: &[u32],
    cut: &mut Vec<u32>,
) -> Result<(), Memory>
    requires { IsTrue (chains net.now src (end_of net.now src walk.now) walk.now) }
    ensures { OnOk result (IsCut net.now src walk.now cut.new.items) }
{
    cut.clear();
    let mut rest = after_last(net, src, walk);
    while let Some((h, tail)) = rest.split_first() {
        cut.push(*h)?;
        rest = after_last(net, net.links.as_slice()[*h as usize].head, tail);
    }
    Ok(())
}

/// The walk from `src` without its loops, as `cut_loops_into` has it, in memory of its own.
///
/// `Memory` comes where memory is wanting.
pub fn cut_loops(alloc: Global, net: &Network, src: u32, walk: &[u32]) -> Result<Vec<u32>, Memory>
    requires { IsTrue (chains net.now src (end_of net.now src walk.now) walk.now) }
    ensures cut { IfOk result (λ c. IsCut net.now src walk.now c.items) }
    ensures path { IfOk result (λ c. IsTrue (is_path net.now src (end_of net.now src walk.now) c.items)) }
{
    let mut cut = Vec::new(alloc);
    cut_loops_into(net, src, walk, &mut cut)?;
    Ok(cut)
}
