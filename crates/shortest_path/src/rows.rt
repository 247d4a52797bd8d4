//! The links of a network by the nodes where they start.
ghost use Rattle.std.specs.Prelude.{◌≡◌, ◌<◌, ◌++◌, ◌∷◌, [], OnOk, slice_set, ◌^◌, ◌≤◌, IfOk, All, length, vec_len};
ghost use Rattle.te_model.specs.declared.limits.TheConstants.{FORMAT_2};
ghost use Rattle.te_model.specs.Network.{link_count};
ghost use Rattle.shortest_path.specs.Links.{ends_of, HasSoundLinks};
ghost use Rattle.shortest_path.specs.Rows.{AreArcRows, arc_row};

use crate::row::Row;
use std::alloc::Global;
use te_model::{Link, Memory, Network};

/// Whether a search goes along links or against them.
#[derive(Clone, Copy)]
pub enum Direction {
    /// Along links: from their tails to their heads.
    Forward,
    /// Against links: from their heads to their tails.
    Backward,
}

/// Where the link starts and ends in the direction.
pub fn ends(direction: Direction, link: Link) -> (u32, u32)
    ensures { result ≡ ends_of direction link }
{
    match direction {
        Direction::Forward => (link.tail, link.head),
        Direction::Backward => (link.head, link.tail),
    }
}

/// Adds a link that starts at a node.
fn add(rows: &mut [Row], from: usize, link: u32) -> Result<(), Memory>
    requires { from < length rows.old }
    ensures { OnOk result (rows.new ≡ slice_set rows.old from (arc_row rows.old from ++ link ∷ [])) }
{
    rows[from].push(link)
}

/// A row without links for each node, with room for an even share of the links.
fn empty_rows(alloc: Global, nodes: usize, links: usize) -> Result<Vec<Row>, Memory>
    requires { links ≤ FORMAT_2.links }
    ensures { IfOk result (λ g. (vec_len g ≡ nodes) × All (λ r. r ≡ []) g.items) }
{
    let room = links / nodes.max(1) + 1;
    let mut rows = Vec::with_capacity(alloc, nodes)?;
    for _ in 0..nodes {
        rows.push(Row::with_room(alloc, room)?)?;
    }
    Ok(rows)
}

/// For each node the links that start there in the direction.
pub fn rows_of(alloc: Global, net: &Network, direction: Direction) -> Result<Vec<Row>, Memory>
    requires { HasSoundLinks net.now }
    ensures { IfOk result (λ r. AreArcRows net.now direction (link_count net.now) r.items) }
{
    let links = net.links.as_slice();
    let mut rows = empty_rows(alloc, net.names.as_slice().len(), links.len())?;
    for h in 0..links.len() {
        let (from, _) = ends(direction, links[h]);
        add(&mut rows, from as usize, h as u32)?;
    }
    Ok(rows)
}
