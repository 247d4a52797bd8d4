//! Which nodes have a path to which.
ghost use Rattle.std.specs.Prelude.{◌≡◌, ◌<◌, List, IfOk, IsTrue, length, map, is_some};
ghost use Rattle.te_model.specs.Network.{is_well_formed, node_count};
ghost use Rattle.shortest_path.specs.Costs.{HasCosts};
ghost use Rattle.te_model.specs.Marks.{is_marked};
ghost use Rattle.series_simulation.specs.Connected.{MarksReachable, TellsPaths, connects};

use shortest_path::{costs, distances};
use std::alloc::Global;
use te_model::{Items, Memory, Network, Pair};

/// For each node the marks of the nodes to which it has a path.
#[derive(Drop)]
pub struct Reachability {
    rows: Items<Items<bool>>,
}

/// The mark at a place, and none past the end.
fn is_marked(marks: &[bool], place: usize) -> bool
    ensures { result ≡ is_marked marks.now place }
{
    if place < marks.len() {
        marks[place]
    } else {
        false
    }
}

/// For each node whether it has a distance.
fn path_marks(alloc: Global, distances: &[Option<u64>]) -> Result<Items<bool>, Memory>
    ensures { IfOk result (λ marks. marks ≡ map (λ d. is_some d) distances.now) }
{
    let mut marks = Vec::new(alloc);
    for distance in distances {
        marks.push(distance.is_some())?;
    }
    Ok(Items::new(marks))
}

/// The marks of the nodes to which a node has a path.
fn reachable_from(
    alloc: Global,
    net: &Network,
    costs: &[u64],
    node: u32,
) -> Result<Items<bool>, Memory>
    requires network { IsTrue (is_well_formed net.now) }
    requires costs { HasCosts net.now costs.now }
    requires node { node < node_count net.now }
    ensures { IfOk result (MarksReachable net.now node) }
{
    let distances = distances(alloc, net, costs, node)?;
    let row = path_marks(alloc, &distances)?;
    Ok(row)
}

impl Reachability {
    /// Which nodes of the network have a path to which. `Memory` comes where memory is wanting.
    pub fn of(alloc: Global, net: &Network) -> Result<Reachability, Memory>
        requires { IsTrue (is_well_formed net.now) }
        ensures { IfOk result (λ reach. TellsPaths net.now (connects reach)) }
    {
        let costs = costs(alloc, net)?;
        let mut rows = Vec::new(alloc);
        for node in 0..net.names.as_slice().len() {
            rows.push(reachable_from(alloc, net, &costs, node as u32)?)?;
        }
        Ok(Reachability {
            rows: Items::new(rows),
        })
    }

    /// Whether the source of the pair has a path to its destination.
    pub fn connects(&self, pair: Pair) -> bool
        ensures { result ≡ connects self.now pair }
    {
        let rows = self.rows.as_slice();
        let source = pair.src as usize;
        if source < rows.len() {
            is_marked(rows[source].as_slice(), pair.dst as usize)
        } else {
            false
        }
    }
}
