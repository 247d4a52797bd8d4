//! The names of drawn nodes.
ghost use Rattle.std.specs.Prelude.{◌≡◌, IfOk};
ghost use Rattle.random_network.specs.Drawn.{node_names};

use std::alloc::Global;
use te_model::{Memory, Name};

/// The names `n0`, `n1` and so on, one for each node.
pub fn node_names(alloc: Global, nodes: u32) -> Result<Vec<Name>, Memory>
    ensures { IfOk result (λ names. names.items ≡ node_names nodes) }
{
    let mut names = Vec::new(alloc);
    for node in 0..nodes {
        names.push(Name::new(format!(in alloc; "n{node}")?))?;
    }
    Ok(names)
}
