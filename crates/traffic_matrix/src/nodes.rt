//! The numbers of nodes, by their names.

ghost use Rattle.std.specs.Prelude.{◌≡◌, ◌<◌, ◌≤◌, IfOk, IfSome, IsTrue, length};
ghost use Rattle.te_model.specs.Network.{is_well_formed};
ghost use Rattle.traffic_matrix.specs.Rows.{number_named};

use indexmap::IndexSet;
use std::alloc::Global;
use std::marker::Model;
use te_model::{Memory, Network};

/// The names of a network's nodes, which a contract sees as their list.
#[derive(Drop)]
pub struct Nodes {
    names: IndexSet<Vec<u8>>,
}

impl Model for Nodes {
    ghost use Rattle.std.specs.Prelude.{ℕ, List, map};

    ghost Value = { List (List ℕ) };

    ghost view = { λ a. map (λ v. v.items) a.names.keys };
}

impl Nodes {
    /// The names of the network's nodes, in order.
    pub fn new(alloc: Global, net: &Network) -> Result<Nodes, Memory>
        requires { IsTrue (is_well_formed net.now) }
        ensures { IfOk result (λ nodes. nodes ≡ net.now.names) }
    {
        let mut names = IndexSet::new(alloc);
        for name in net.names.as_slice() {
            names.insert(Vec::from_slice(alloc, name.as_str().as_bytes())?)?;
        }
        Ok(Nodes { names })
    }

    /// How many nodes there are.
    pub fn len(&self) -> usize
        ensures { result ≡ length self.now }
    {
        self.names.len()
    }

    /// The number of the node of this name, where there is one.
    pub fn find(&self, name: &[u8]) -> Option<usize>
        ensures number { result ≡ number_named self.now name.now }
        ensures within { IfSome result (λ v. v < length self.now) }
    {
        self.names.get_index_of(name)
    }
}
