//! The links over which the paths of a class may go on.
ghost use Rattle.std.specs.Prelude.{◌≡◌, ◌<◌, ◌==◌, All, IfOk, length, slice_index_or, vec_len};
ghost use Rattle.std.specs.List.{list_any};
ghost use Rattle.te_model.specs.Network.{link_count, no_link};
ghost use Rattle.shortest_path.specs.Links.{HasSoundLinks};
ghost use Rattle.k_paths.specs.Classes.{AreClassMarks, is_allowed_link};
ghost use Rattle.k_paths.specs.Ways.{is_visited};

use std::alloc::Global;
use te_model::{Link, Memory, Network};

/// Whether one of the links leads to the node.
fn leads_to(links: &[Link], prefix: &[u32], node: u32) -> bool
    requires { All (λ h. h < length links.now) prefix.now }
    ensures { result ≡ list_any (λ h. (slice_index_or links.now h no_link).head == node) prefix.now }
{
    for h in prefix {
        if links[*h as usize].head == node {
            return true;
        }
    }
    false
}

/// Whether the links of the prefix, from `src` on, lead to the node.
pub fn is_visited(links: &[Link], src: u32, prefix: &[u32], node: u32) -> bool
    requires { All (λ h. h < length links.now) prefix.now }
    ensures { result ≡ is_visited links.now src prefix.now node }
{
    src == node || leads_to(links, prefix, node)
}

/// Whether paths that begin with the prefix may go on from the node over the link.
pub fn is_allowed(
    links: &[Link],
    src: u32,
    prefix: &[u32],
    excluded: &[u32],
    node: u32,
    h: u32,
) -> bool
    requires prefix { All (λ k. k < length links.now) prefix.now }
    requires link { h < length links.now }
    ensures { result ≡ is_allowed_link links.now src prefix.now excluded.now node h }
{
    let link = links[h as usize];
    !is_visited(links, src, prefix, link.head) && !(link.tail == node && excluded.contains(&h))
}

/// The marks of the links over which paths that begin with the prefix may go on from the node.
pub fn class_marks(
    alloc: Global,
    net: &Network,
    src: u32,
    prefix: &[u32],
    excluded: &[u32],
    node: u32,
) -> Result<Vec<bool>, Memory>
    requires sound { HasSoundLinks net.now }
    requires links { All (λ h. h < link_count net.now) prefix.now }
    ensures count { IfOk result (λ m. vec_len m ≡ link_count net.now) }
    ensures marks { IfOk result (λ m. AreClassMarks net.now src node prefix.now excluded.now m.items) }
{
    let links = net.links.as_slice();
    let mut marks = Vec::new(alloc);
    for h in 0..links.len() {
        marks.push(is_allowed(links, src, prefix, excluded, node, h as u32))?;
    }
    Ok(marks)
}
