//! The links that start at one node.
use std::alloc::Global;
use std::marker::Model;
use te_model::Memory;

/// The links that start at one node, by number.
#[derive(Drop)]
pub struct Row {
    links: Vec<u32>,
}

impl Model for Row {
    ghost use Rattle.std.specs.Prelude.{List, ℕ};

    ghost Value = { List ℕ };

    ghost view = { λ r. r.links.items };
}

impl Row {
    ghost use Rattle.std.specs.Prelude.{◌≡◌, [], ◌∷◌, ◌++◌, ◌^◌, ◌≤◌, IfOk, OnOk};

    /// No links, with room for as many as `room` says.
    pub fn with_room(alloc: Global, room: usize) -> Result<Row, Memory>
        requires { room ≤ 2 ^ 32 }
        ensures { IfOk result (λ r. r ≡ []) }
    {
        let links = Vec::with_capacity(alloc, room)?;
        Ok(Row { links })
    }

    /// Lends the links.
    pub fn as_slice(&self) -> &[u32]
        ensures { result.now ≡ self.now }
    {
        self.links.as_slice()
    }

    /// Adds a link.
    pub fn push(&mut self, link: u32) -> Result<(), Memory>
        ensures { OnOk result (self.new ≡ self.old ++ link ∷ []) }
    {
        self.links.push(link)?;
        Ok(())
    }
}
