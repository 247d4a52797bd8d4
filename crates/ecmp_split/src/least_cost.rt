//! The least costs to one node.
ghost use Rattle.std.specs.Prelude.{◌≡◌, ◌<◌, IfOk, IsTrue};
ghost use Rattle.te_model.specs.Network.{is_well_formed, node_count};
ghost use Rattle.shortest_path.specs.declared.rows.Direction.TheVariants.{Backward};
ghost use Rattle.shortest_path.specs.Rows.{IsSearchGraph};
ghost use Rattle.ecmp_split.specs.Equal.{AreCostsTo};

use shortest_path::{Searches, costs};
use std::alloc::Global;
use te_model::{Memory, Network};

/// The least cost from each node to `dst`, or `None` where no path leads there. The searches are against links in the network.
pub fn costs_to(
    alloc: Global,
    net: &Network,
    searches: &mut Searches,
    dst: u32,
) -> Result<Vec<Option<u64>>, Memory>
    requires network { IsTrue (is_well_formed net.now) }
    requires against { IsSearchGraph net.now Backward searches.old }
    requires dst { dst < node_count net.now }
    ensures costs { IfOk result (λ sums. AreCostsTo net.now dst sums.items) }
    ensures same { searches.new ≡ searches.old }
{
    let lengths = costs(alloc, net)?;
    let every = vec![in alloc; true; net.links.as_slice().len()]?;
    let mut sums: Vec<Option<u64>> = vec![in alloc; None; net.names.as_slice().len()]?;
    searches.toward(net, &lengths, &every, dst, &mut sums);
    Ok(sums)
}
