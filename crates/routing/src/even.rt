//! The unit of shares in even parts over paths.
ghost use Rattle.std.specs.Prelude.{◌≡◌, ◌≤◌, IfOk, map, vec_len};
ghost use Rattle.routing.specs.Even.{IsEvenMix, of_weight_one};

use crate::merging::merge;
use crate::normal::normalize;
use std::alloc::Global;
use te_model::{Memory, Path, PathShare};

/// The paths, each with a weight of one.
fn of_weight_one(alloc: Global, paths: Vec<Path>) -> Result<Vec<PathShare>, Memory>
    ensures { IfOk result (λ parts. parts.items ≡ of_weight_one (map (λ p. p.links) paths.items)) }
{
    let mut parts = Vec::with_capacity(alloc, paths.len())?;
    for path in paths {
        parts.push(PathShare {
            links: path.links,
            weight: 1,
        })?;
    }
    Ok(parts)
}

/// The paths with even weights, which sum to one million, equal ones taken together. The units that
/// do not divide go to the first paths (the method of largest remainders; Hamilton, 1792).
///
/// There are 1 to 4096 paths. `Memory` comes where memory is wanting.
pub fn even_mix(alloc: Global, paths: Vec<Path>) -> Result<Vec<PathShare>, Memory>
    requires some { 1 ≤ vec_len paths }
    requires few { vec_len paths ≤ 4096 }
    ensures { IfOk result (λ m. IsEvenMix (map (λ p. p.links) paths.items) m.items) }
{
    let ones = of_weight_one(alloc, paths)?;
    let parts = normalize(alloc, &ones)?;
    let merged = merge(alloc, parts)?;
    Ok(merged)
}
