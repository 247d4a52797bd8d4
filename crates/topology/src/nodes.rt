//! Nodes by name, in order of first appearance.

ghost use Rattle.std.specs.Prelude.{◌≡◌, ◌<◌, ◌≤◌, ◌+◌, [], length, IfOk, OnOk};
ghost use Rattle.topology.specs.Numbering.{with_name, number_in};

use indexmap::IndexSet;
use std::alloc::Global;
use std::marker::Model;
use te_model::{Items, Memory, Name};

/// The names of the nodes, which a contract sees as their list.
#[derive(Drop)]
pub struct Nodes {
    set: IndexSet<String>,
}

impl Model for Nodes {
    ghost use Rattle.std.specs.Prelude.{ℕ, List, map, string_bytes};

    ghost Value = { List (List ℕ) };

    ghost view = { λ a. map string_bytes a.set.keys };
}

impl Nodes {
    /// No node.
    pub fn new(alloc: Global) -> Nodes
        ensures { result ≡ [] }
    {
        Nodes {
            set: IndexSet::new(alloc),
        }
    }

    /// The number of a node, which gets the next one where it is new.
    pub fn number(&mut self, alloc: Global, name: &str) -> Result<usize, Memory>
        ensures number { IfOk result (λ i. i ≡ number_in self.old name.now) }
        ensures within { IfOk result (λ i. i < length self.new) }
        ensures grows { OnOk result (length self.new ≤ length self.old + 1) }
        ensures names { OnOk result (self.new ≡ with_name self.old name.now) }
    {
        let key = String::from_str(alloc, name)?;
        let (index, _) = self.set.insert_full(key)?;
        Ok(index)
    }

    /// How many nodes there are.
    pub fn len(&self) -> usize
        ensures { result ≡ length self.now }
    {
        self.set.len()
    }

    /// The names in order.
    pub fn into_names(self, alloc: Global) -> Result<Items<Name>, Memory>
        ensures { IfOk result (λ names. names ≡ self) }
    {
        let mut names = Vec::new(alloc);
        for text in self.set {
            names.push(Name::new(text))?;
        }
        Ok(Items::new(names))
    }
}
