//! The network of the rows so far.

ghost use Rattle.std.specs.Prelude.{◌≡◌, ◌≢◌, ◌≤◌, ◌+◌, OnOk, IfErr, IfOk, Ok, Err, length};
ghost use Rattle.topology.specs.declared.fault.TopologyFault.TheVariants as fault;
ghost use Rattle.topology.specs.Topology.{closed_network, no_links, with_link, within};

use crate::entry::Entry;
use crate::fault::TopologyFault;
use crate::nodes::Nodes;
use std::alloc::Global;
use std::marker::Model;
use te_model::{Items, Link, MAX_LINKS, MAX_NODES, Network};

/// The nodes and links of the rows so far, which a contract sees as a network.
#[derive(Drop)]
pub struct Draft {
    nodes: Nodes,
    links: Vec<Link>,
}

impl Model for Draft {
    ghost use Rattle.te_model.specs.declared.network.Network.{Network};

    ghost Value = { Network };

    ghost view = { λ a. record { names = a.nodes; links = a.links.items } };
}

impl Draft {
    /// No link.
    pub fn new(alloc: Global) -> Draft
        ensures { result ≡ no_links }
    {
        Draft {
            nodes: Nodes::new(alloc),
            links: Vec::new(alloc),
        }
    }

    /// Adds a link, where the network stays within its limits.
    pub fn add_link(
        &mut self,
        alloc: Global,
        link: Entry<'_>,
        row: u64,
    ) -> Result<(), TopologyFault>
        requires nodes { length self.old.names ≤ MAX_NODES }
        ensures added { OnOk result (within row (with_link self.old (record { source = link.entry.source.now; target = link.entry.target.now; capacity = link.entry.capacity; cost = link.entry.cost })) ≡ Ok self.new) }
        ensures nodes { OnOk result (length self.new.names ≤ MAX_NODES) }
        ensures links { OnOk result (length self.new.links ≡ length self.old.links + 1) }
        ensures few { OnOk result (length self.new.links ≤ MAX_LINKS) }
        ensures refused { IfErr result (λ e. e ≢ fault.Memory → within row (with_link self.old (record { source = link.entry.source.now; target = link.entry.target.now; capacity = link.entry.capacity; cost = link.entry.cost })) ≡ Err e) }
    {
        let tail = self.nodes.number(alloc, link.source)? as u32;
        let head = self.nodes.number(alloc, link.target)? as u32;
        if self.nodes.len() > MAX_NODES || self.links.len() >= MAX_LINKS {
            return Err(TopologyFault::TooMany(row));
        }
        let added = Link {
            tail,
            head,
            capacity: link.capacity,
            cost: link.cost,
        };
        if self.links.push(added).is_err() {
            return Err(TopologyFault::Memory);
        }
        Ok(())
    }

    /// The network, which has a link.
    pub fn close(self, alloc: Global) -> Result<Network, TopologyFault>
        ensures network { IfOk result (λ net. closed_network self ≡ Ok net) }
        ensures refused { IfErr result (λ e. e ≢ fault.Memory → closed_network self ≡ Err e) }
    {
        if self.links.is_empty() {
            return Err(TopologyFault::Empty);
        }
        Ok(Network {
            names: self.nodes.into_names(alloc)?,
            links: Items::new(self.links),
        })
    }
}
