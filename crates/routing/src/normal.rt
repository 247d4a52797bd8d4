//! Weights that are scaled to sum to the unit of shares.
ghost use Rattle.std.specs.Prelude.{◌≡◌, ◌≤◌, All, IfOk, length, map};
ghost use Rattle.te_model.specs.declared.units.TheConstants.{SHARE_UNIT};
ghost use Rattle.routing.specs.Normal.{with_whole_weight, weighted_paths};
ghost use Rattle.routing.specs.Split.{total_weight};

use std::alloc::Global;
use te_model::{Items, Memory, PathShare, SHARE_UNIT, apportion};

fn weights_of(alloc: Global, parts: &[PathShare]) -> Result<Vec<u64>, Memory>
    ensures { IfOk result (λ weights. weights.items ≡ map (λ s. s.weight) parts.now) }
{
    let mut weights = Vec::with_capacity(alloc, parts.len())?;
    for part in parts {
        weights.push(part.weight)?;
    }
    Ok(weights)
}

/// The paths of the parts with these weights.
fn with_weights(
    alloc: Global,
    parts: &[PathShare],
    weights: &[u64],
) -> Result<Vec<PathShare>, Memory>
    requires { length weights.now ≡ length parts.now }
    ensures { IfOk result (λ made. made.items ≡ weighted_paths (map (λ s. s.links) parts.now) weights.now) }
{
    let mut made = Vec::with_capacity(alloc, parts.len())?;
    for i in 0..parts.len() {
        let links = Vec::from_slice(alloc, parts[i].links.as_slice())?;
        made.push(PathShare {
            links: Items::new(links),
            weight: weights[i],
        })?;
    }
    Ok(made)
}

/// The parts with weights that sum to the unit of shares: the unit is apportioned by their weights,
/// and the units that rounding leaves over go to the largest remainders.
///
/// `Memory` comes where memory is wanting.
pub fn normalize(alloc: Global, parts: &[PathShare]) -> Result<Vec<PathShare>, Memory>
    requires some { 1 ≤ length parts.now }
    requires count { length parts.now ≤ 4096 }
    requires weights { All (λ s. 1 ≤ s.weight) parts.now }
    requires whole { total_weight parts.now ≤ SHARE_UNIT }
    ensures parts { IfOk result (λ made. made.items ≡ with_whole_weight parts.now) }
    ensures whole { IfOk result (λ made. total_weight made.items ≡ SHARE_UNIT) }
    ensures positive { IfOk result (λ made. All (λ s. 1 ≤ s.weight) made.items) }
{
    let weights = weights_of(alloc, parts)?;
    let shares = apportion(alloc, SHARE_UNIT, &weights)?;
    let made = with_weights(alloc, parts, &shares)?;
    Ok(made)
}
