//! The links that leave each node.
ghost use Rattle.std.specs.Prelude.{IfOk};
ghost use Rattle.shortest_path.specs.Links.{HasSoundLinks};
ghost use Rattle.k_paths.specs.Outgoing.{AreOutgoing};

use std::alloc::Global;
use te_model::{Items, Memory, Network};

/// The links that leave each node, in ascending order: for each node the first, and for each link the
/// next that leaves its tail. The number of links stands where there is none.
#[derive(Drop)]
pub struct Outgoing {
    pub firsts: Items<u32>,
    pub nexts: Items<u32>,
}

/// The links that leave each node of the network.
pub fn outgoing_links(alloc: Global, net: &Network) -> Result<Outgoing, Memory>
    requires { HasSoundLinks net.now }
    ensures { IfOk result (λ o. AreOutgoing net.now o) }
{
    let links = net.links.as_slice();
    let none = links.len() as u32;
    let mut firsts = vec![in alloc; none; net.names.as_slice().len()]?;
    let mut nexts = vec![in alloc; none; links.len()]?;
    let mut h = links.len();
    while h > 0 {
        h -= 1;
        let tail = links[h].tail as usize;
        nexts[h] = firsts[tail];
        firsts[tail] = h as u32;
    }
    Ok(Outgoing {
        firsts: Items::new(firsts),
        nexts: Items::new(nexts),
    })
}
