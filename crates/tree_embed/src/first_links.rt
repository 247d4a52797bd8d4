//! The first links of the least paths between all nodes.
ghost use Rattle.std.specs.Prelude.{IfOk, IsTrue, length, ◌≡◌};
ghost use Rattle.te_model.specs.Network.{is_well_formed, link_count};
ghost use Rattle.tree_embed.specs.Tables.{AreFirsts, AreSums};

use shortest_path::first_links;
use std::alloc::Global;
use te_model::{Items, Memory, Network};

/// For each node the first links of the least paths from all nodes to it. `sums` are those that `sums_of` gives.
pub fn firsts_of(
    alloc: Global,
    net: &Network,
    lengths: &[u64],
    sums: &[Items<Option<u64>>],
) -> Result<Vec<Items<Option<u32>>>, Memory>
    requires network { IsTrue (is_well_formed net.now) }
    requires lengths { length lengths.now ≡ link_count net.now }
    requires sums { AreSums net.now lengths.now sums.now }
    ensures { IfOk result (λ f. AreFirsts net.now lengths.now sums.now f.items) }
{
    let every = vec![in alloc; true; net.links.as_slice().len()]?;
    let mut firsts = Vec::with_capacity(alloc, sums.len())?;
    for t in 0..sums.len() {
        let to = sums[t].as_slice();
        let row = first_links(alloc, net, lengths, &every, to)?;
        firsts.push(Items::new(row))?;
    }
    Ok(firsts)
}
