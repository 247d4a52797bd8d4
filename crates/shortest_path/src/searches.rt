//! Many searches in one network.
ghost use Rattle.std.specs.Prelude.{◌≡◌, ◌^◌, ◌≤◌, All, IfOk, length};
ghost use Rattle.shortest_path.specs.Links.{HasSoundLinks};
ghost use Rattle.shortest_path.specs.Rows.{IsSearchGraph};

use crate::node_order::Order;
use crate::passes::{Room, room_for, search};
use crate::rows::{Direction, rows_of};
use crate::settle::Arcs;
use std::alloc::Global;
use std::marker::Model;
use te_model::{Memory, Network};

/// Searches in one network, along its links or against them.
///
/// The links are listed once by the nodes where they start, and all searches use the same room, so they take no memory.
#[derive(Drop)]
pub struct Searches {
    arcs: Arcs,
    /// Marks by which every link is open.
    every: Vec<bool>,
    /// The orders in which searches go on from the nodes: those of the searches before. One is for all, or each is for the searches from
    /// one node.
    orders: Vec<Order>,
    room: Room,
}

impl Model for Searches {
    ghost use Rattle.std.specs.Prelude.{◌≡◌, ◌≤◌, All, length, replicate, true};
    ghost use Rattle.shortest_path.specs.Passes.{IsRoom};
    ghost use Rattle.shortest_path.specs.Rows.{SearchGraph};

    ghost Value = { SearchGraph };

    ghost view = { λ s. record { direction = s.arcs.direction; rows = s.arcs.rows.items; links = length s.every.items } };

    ghost invariant = { λ s. (s.every.items ≡ replicate (length s.every.items) true) × (1 ≤ length s.orders.items) × All (λ o. o ≡ length s.arcs.rows.items) s.orders.items × IsRoom (length s.arcs.rows.items) s.room };
}

/// So many orders of so many nodes by number.
fn orders_of(alloc: Global, count: usize, nodes: usize) -> Result<Vec<Order>, Memory>
    requires { nodes ≤ 2 ^ 32 }
    ensures count { IfOk result (λ o. length o.items ≡ count) }
    ensures nodes { IfOk result (λ o. All (λ k. k ≡ nodes) o.items) }
{
    let mut orders = Vec::with_capacity(alloc, count)?;
    for _ in 0..count {
        orders.push(Order::new(alloc, nodes)?)?;
    }
    Ok(orders)
}

impl Searches {
    ghost use Rattle.std.specs.Prelude.{◌<◌};
    ghost use Rattle.te_model.specs.Network.{link_count, node_count};
    ghost use Rattle.shortest_path.specs.declared.rows.Direction.TheVariants.{Forward, Backward};
    ghost use Rattle.shortest_path.specs.Least.{AreLeastSums};
    ghost use Rattle.shortest_path.specs.Paths.{AreDistances};

    /// Searches in the network with so many orders.
    fn with_count(
        alloc: Global,
        net: &Network,
        direction: Direction,
        orders: usize,
    ) -> Result<Searches, Memory>
        requires sound { HasSoundLinks net.now }
        requires orders { 1 ≤ orders }
        ensures { IfOk result (IsSearchGraph net.now direction) }
    {
        let rows = rows_of(alloc, net, direction)?;
        let every = vec![in alloc; true; net.links.as_slice().len()]?;
        let nodes = net.names.as_slice().len();
        let orders = orders_of(alloc, orders, nodes)?;
        let room = room_for(alloc, nodes)?;
        let arcs = Arcs { direction, rows };
        Ok(Searches {
            arcs,
            every,
            orders,
            room,
        })
    }

    /// Searches in the network. `Memory` comes where memory is wanting.
    pub fn new(alloc: Global, net: &Network, direction: Direction) -> Result<Searches, Memory>
        requires { HasSoundLinks net.now }
        ensures { IfOk result (IsSearchGraph net.now direction) }
    {
        Searches::with_count(alloc, net, direction, 1)
    }

    /// Searches in the network that take the less the nearer the lengths are to those of the search before from the same node.
    /// `Memory` comes where memory is wanting.
    pub fn with_orders(
        alloc: Global,
        net: &Network,
        direction: Direction,
    ) -> Result<Searches, Memory>
        requires { HasSoundLinks net.now }
        ensures { IfOk result (IsSearchGraph net.now direction) }
    {
        Searches::with_count(alloc, net, direction, net.names.as_slice().len().max(1))
    }

    /// Writes into `distances` what [`distances`](crate::distances) gives. The searches are along links in `net`.
    /// Takes no memory.
    pub fn distances(
        &mut self,
        net: &Network,
        lengths: &[u64],
        src: u32,
        distances: &mut [Option<u64>],
    )
        requires sound { HasSoundLinks net.now }
        requires along { IsSearchGraph net.now Forward self.old }
        requires lengths { length lengths.now ≡ link_count net.now }
        requires limit { All (λ l. l ≤ 2 ^ 28) lengths.now }
        requires src { src < node_count net.now }
        requires room { length distances.old ≡ node_count net.now }
        ensures distances { AreDistances net.now lengths.now src distances.new }
        ensures same { self.new ≡ self.old }
    {
        let open = self.every.as_slice();
        let place = (src as usize).min(self.orders.len() - 1);
        let order = &mut self.orders[place];
        let room = &mut self.room;
        search(net, &self.arcs, lengths, open, src, order, distances, room);
    }

    /// Writes into `sums` what [`toward`](crate::toward) gives. The searches are against links in `net`. Takes no memory.
    pub fn toward(
        &mut self,
        net: &Network,
        lengths: &[u64],
        open: &[bool],
        dst: u32,
        sums: &mut [Option<u64>],
    )
        requires sound { HasSoundLinks net.now }
        requires against { IsSearchGraph net.now Backward self.old }
        requires lengths { length lengths.now ≡ link_count net.now }
        requires marks { length «open».now ≡ link_count net.now }
        requires limit { All (λ l. l ≤ 2 ^ 28) lengths.now }
        requires dst { dst < node_count net.now }
        requires room { length sums.old ≡ node_count net.now }
        ensures sums { AreLeastSums net.now lengths.now «open».now dst sums.new }
        ensures same { self.new ≡ self.old }
    {
        let place = (dst as usize).min(self.orders.len() - 1);
        let order = &mut self.orders[place];
        let room = &mut self.room;
        search(net, &self.arcs, lengths, open, dst, order, sums, room);
    }
}
