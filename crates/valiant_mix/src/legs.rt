//! The least paths by cost between all nodes.
ghost use Rattle.std.specs.Prelude.{◌<◌, IfOk, IsTrue};
ghost use Rattle.te_model.specs.Network.{is_well_formed, node_count};
ghost use Rattle.shortest_path.specs.Links.{HasSoundLinks};
ghost use Rattle.shortest_path.specs.Ways.{AreWays};
ghost use Rattle.valiant_mix.specs.Legs.{AreLegsTo, AreLegsToEach, IsLegOrNone};

use shortest_path::{Direction, Searches, Ways, way_from, ways_to};
use std::alloc::Global;
use te_model::{Items, Memory, Network, Path};

/// The least paths by cost to one node.
#[derive(Drop)]
pub struct Legs {
    /// The path from each node, which has no link from the node itself, or `None` where none leads there.
    pub sources: Items<Option<Path>>,
}

/// The least path by cost from the node to that of the ways, which has no link where they are one node.
fn leg_from(alloc: Global, net: &Network, ways: &Ways, src: u32) -> Result<Option<Path>, Memory>
    requires sound { HasSoundLinks net.now }
    requires ways { AreWays net.now ways.now }
    requires src { src < node_count net.now }
    ensures { IfOk result (λ l. IsLegOrNone net.now src ways.now.dst l) }
{
    match way_from(alloc, net, ways, src)? {
        Some(way) => {
            let links = Items::new(way);
            Ok(Some(Path { links }))
        }
        None => Ok(None),
    }
}

/// The least paths by cost from each node to that of the ways.
fn legs_to(alloc: Global, net: &Network, ways: &Ways) -> Result<Legs, Memory>
    requires sound { HasSoundLinks net.now }
    requires ways { AreWays net.now ways.now }
    ensures { IfOk result (λ l. AreLegsTo net.now ways.now.dst (node_count net.now) l.sources) }
{
    let mut list = Vec::new(alloc);
    for src in 0..net.names.as_slice().len() {
        let leg = leg_from(alloc, net, ways, src as u32)?;
        list.push(leg)?;
    }
    Ok(Legs {
        sources: Items::new(list),
    })
}

/// The least paths by cost from each node to each: one search a node, which serves all pairs.
pub fn legs_to_each(alloc: Global, net: &Network) -> Result<Vec<Legs>, Memory>
    requires { IsTrue (is_well_formed net.now) }
    ensures { IfOk result (λ l. AreLegsToEach net.now (node_count net.now) l.items) }
{
    let mut searches = Searches::new(alloc, net, Direction::Backward)?;
    let mut list = Vec::new(alloc);
    for node in 0..net.names.as_slice().len() {
        let ways = ways_to(alloc, net, &mut searches, node as u32)?;
        let legs = legs_to(alloc, net, &ways)?;
        list.push(legs)?;
    }
    Ok(list)
}
