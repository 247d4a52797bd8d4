//! The costs of links as lengths.
ghost use Rattle.std.specs.Prelude.{◌≡◌, IfOk, IsTrue, map};
ghost use Rattle.te_model.specs.Network.{is_well_formed};
ghost use Rattle.shortest_path.specs.Costs.{HasCosts};

use std::alloc::Global;
use te_model::{Link, Memory, Network};

/// The costs of the links.
fn costs_of_links(alloc: Global, links: &[Link]) -> Result<Vec<u64>, Memory>
    ensures { IfOk result (λ c. c.items ≡ map (λ l. l.cost) links.now) }
{
    let costs = links
        .iter()
        .map(|link| u64::from(link.cost))
        .collect(alloc)?;
    Ok(costs)
}

/// The cost of each link, as its length.
///
/// `Memory` comes where memory is wanting.
pub fn costs(alloc: Global, net: &Network) -> Result<Vec<u64>, Memory>
    requires { IsTrue (is_well_formed net.now) }
    ensures { IfOk result (λ c. HasCosts net.now c.items) }
{
    let costs = costs_of_links(alloc, net.links.as_slice())?;
    Ok(costs)
}
