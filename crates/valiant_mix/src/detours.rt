//! Detours of a pair: the walks by least paths over other nodes, without their loops.
ghost use Rattle.std.specs.Prelude.{◌<◌, ◌++◌, ℕ, List, IfOk, IsTrue, MatchOption, map};
ghost use Rattle.te_model.specs.Network.{is_well_formed, node_count};
ghost use Rattle.routing.specs.Loops.{IsCut};
ghost use Rattle.valiant_mix.specs.Valiant.{AreDetours, IsDetour, IsLeg};
ghost use Rattle.valiant_mix.specs.Legs.{AreLegsToEach};

use crate::legs::Legs;
use routing::cut_loops_into;
use std::alloc::Global;
use te_model::{Items, Memory, Network, Path};

/// Memory for one walk after the other.
#[derive(Drop)]
pub struct WalkSpace {
    walk: Vec<u32>,
    cut: Vec<u32>,
}

impl WalkSpace {
    ghost use Rattle.std.specs.Prelude.{◌≡◌, []};

    /// Takes no memory yet.
    pub fn new(alloc: Global) -> WalkSpace
        ensures walk { result.walk.items ≡ [] }
        ensures cut { result.cut.items ≡ [] }
    {
        WalkSpace {
            walk: Vec::new(alloc),
            cut: Vec::new(alloc),
        }
    }
}

/// The walk along both legs without its loops.
fn join_legs(
    alloc: Global,
    net: &Network,
    src: u32,
    there: &[u32],
    on: &[u32],
    space: &mut WalkSpace,
) -> Result<Path, Memory>
    requires { (m t : ℕ) × IsLeg net.now src m there.now × IsLeg net.now m t on.now }
    ensures { IfOk result (λ p. IsCut net.now src (there.now ++ on.now) p.links) }
{
    space.walk.clear();
    space.walk.extend_from_slice(there)?;
    space.walk.extend_from_slice(on)?;
    cut_loops_into(net, src, space.walk.as_slice(), &mut space.cut)?;
    let links = Vec::from_slice(alloc, space.cut.as_slice())?;
    Ok(Path {
        links: Items::new(links),
    })
}

/// The detour over a node, or `None` where no path leads there or on from there.
fn detour(
    alloc: Global,
    net: &Network,
    legs: &[Legs],
    src: u32,
    middle: u32,
    dst: u32,
    space: &mut WalkSpace,
) -> Result<Option<Path>, Memory>
    requires legs { AreLegsToEach net.now (node_count net.now) legs.now }
    requires src { src < node_count net.now }
    requires middle { middle < node_count net.now }
    requires dst { dst < node_count net.now }
    ensures { IfOk result (λ d. MatchOption d ((path : List ℕ) → IsDetour net.now src dst middle path → ⊥) (λ p. IsDetour net.now src dst middle p.links)) }
{
    match &legs[middle as usize].sources.as_slice()[src as usize] {
        None => Ok(None),
        Some(there) => match &legs[dst as usize].sources.as_slice()[middle as usize] {
            None => Ok(None),
            Some(on) => {
                let path = join_legs(
                    alloc,
                    net,
                    src,
                    there.links.as_slice(),
                    on.links.as_slice(),
                    space,
                )?;
                Ok(Some(path))
            }
        },
    }
}

/// The detours over each node in order, those to which or from which no path leads left out.
pub fn detours(
    alloc: Global,
    net: &Network,
    legs: &[Legs],
    src: u32,
    dst: u32,
    space: &mut WalkSpace,
) -> Result<Vec<Path>, Memory>
    requires network { IsTrue (is_well_formed net.now) }
    requires legs { AreLegsToEach net.now (node_count net.now) legs.now }
    requires src { src < node_count net.now }
    requires dst { dst < node_count net.now }
    ensures { IfOk result (λ p. AreDetours net.now src dst (node_count net.now) (map (λ q. q.links) p.items)) }
{
    let mut paths = Vec::with_capacity(alloc, legs.len())?;
    for middle in 0..legs.len() {
        match detour(alloc, net, legs, src, middle as u32, dst, space)? {
            Some(path) => paths.push(path)?,
            None => {}
        }
    }
    Ok(paths)
}
