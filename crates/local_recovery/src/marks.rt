//! Marks of links that have failed.
ghost use Rattle.std.specs.Prelude.{◌≡◌, IfOk, slice_index_or, false, map, not};
ghost use Rattle.local_recovery.specs.Recovery.{is_marked, open_links, is_clear};

use std::alloc::Global;
use te_model::{Memory, PathShare};

/// Whether the link has failed.
pub fn has_failed(failed: &[bool], link: u32) -> bool
    ensures { result ≡ is_marked failed.now link }
{
    let place = link as usize;
    if place < failed.len() {
        failed[place]
    } else {
        false
    }
}

/// Whether no link of the path has failed.
pub fn is_clear(failed: &[bool], path: &PathShare) -> bool
    ensures { result ≡ is_clear failed.now path.now }
{
    path.links
        .as_slice()
        .iter()
        .all(|link| !has_failed(failed, *link))
}

/// The marks of the links that have not failed.
pub fn open_links(alloc: Global, failed: &[bool]) -> Result<Vec<bool>, Memory>
    ensures { IfOk result (λ v. v.items ≡ open_links failed.now) }
{
    let list = failed.iter().map(|mark| !*mark).collect(alloc)?;
    Ok(list)
}
