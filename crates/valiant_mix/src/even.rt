//! Paths with even weights.
ghost use Rattle.std.specs.Prelude.{◌≡◌, ◌≤◌, IfOk, length, map, vec_len};
ghost use Rattle.routing.specs.Even.{IsEvenMix};
ghost use Rattle.routing.specs.Normal.{weighted_paths};
ghost use Rattle.valiant_mix.specs.Even.{even_parts};

use routing::merge;
use std::alloc::Global;
use te_model::{Items, Memory, Path, PathShare, SHARE_UNIT, apportion};

/// The unit of shares in so many even parts, from 1 to 4096.
fn even_parts(alloc: Global, count: usize) -> Result<Vec<u64>, Memory>
    requires some { 1 ≤ count }
    requires few { count ≤ 4096 }
    ensures { IfOk result (λ parts. parts.items ≡ even_parts count) }
{
    let ones = vec![in alloc; 1; count]?;
    let parts = apportion(alloc, SHARE_UNIT, &ones)?;
    Ok(parts)
}

/// The unit of shares in even parts, for one number of paths after the other.
#[derive(Drop)]
pub struct EvenParts {
    parts: Items<u64>,
    ghost even: { parts ≡ even_parts (length parts) },
}

impl EvenParts {
    ghost use Rattle.std.specs.Prelude.{◌≡◌, ◌≤◌, [], OnOk};

    /// No parts yet.
    pub fn new(alloc: Global) -> EvenParts
        ensures { result.parts ≡ [] }
    {
        EvenParts {
            parts: Items::new(Vec::new(alloc)),
        }
    }

    /// Makes the parts of so many paths, from 1 to 4096, unless these are they.
    fn provide(&mut self, alloc: Global, count: usize) -> Result<(), Memory>
        requires some { 1 ≤ count }
        requires few { count ≤ 4096 }
        ensures { OnOk result (self.new.parts ≡ even_parts count) }
    {
        if self.parts.as_slice().len() != count {
            let made = even_parts(alloc, count)?;
            self.parts = Items::new(made);
        }
        Ok(())
    }
}

/// The paths with these weights.
fn with_weights(alloc: Global, paths: Vec<Path>, weights: &[u64]) -> Result<Vec<PathShare>, Memory>
    requires count { length weights.now ≡ length paths.items }
    requires few { length paths.items ≤ 4096 }
    ensures { IfOk result (λ made. made.items ≡ weighted_paths (map (λ p. p.links) paths.items) weights.now) }
{
    let mut made = Vec::with_capacity(alloc, paths.len())?;
    for path in paths {
        let weight = weights[made.len()];
        made.push(PathShare {
            links: path.links,
            weight,
        })?;
    }
    Ok(made)
}

/// The paths with even weights, equal ones taken together: `even_mix` of routing without copies of the paths.
pub fn even_shares(
    alloc: Global,
    paths: Vec<Path>,
    even: &mut EvenParts,
) -> Result<Vec<PathShare>, Memory>
    requires some { 1 ≤ vec_len paths }
    requires few { vec_len paths ≤ 4096 }
    ensures { IfOk result (λ m. IsEvenMix (map (λ p. p.links) paths.items) m.items) }
{
    even.provide(alloc, paths.len())?;
    let parts = with_weights(alloc, paths, even.parts.as_slice())?;
    let merged = merge(alloc, parts)?;
    Ok(merged)
}
