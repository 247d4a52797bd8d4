//! The routing over the paths of the rounds.
ghost use Rattle.std.specs.Prelude.{◌≡◌, ◌<◌, All, IfOk, length, map};
ghost use Rattle.scheme.specs.Fixed.{IsRoutingBy};
ghost use Rattle.mcf_lengths.specs.Rounds.{AreLeastPaths, IsRoundsSplit, paths_of_round, round_paths_of_pair};

use crate::round::{FlowRound, ROUNDS};
use routing::{Routing, even_mix};
use std::alloc::Global;
use te_model::{Items, Memory, Network, PairRoutes, Pairs, Path};

/// The path of the pair of this number in each round.
fn paths_of_pair(alloc: Global, rounds: &[FlowRound], pair: usize) -> Result<Vec<Path>, Memory>
    requires { All (λ r. pair < length r.paths) rounds.now }
    ensures { IfOk result (λ q. map (λ p. p.links) q.items ≡ round_paths_of_pair rounds.now pair) }
{
    let mut paths = Vec::with_capacity(alloc, rounds.len())?;
    for round in rounds {
        let links = Vec::from_slice(alloc, round.paths.as_slice()[pair].links.as_slice())?;
        paths.push(Path {
            links: Items::new(links),
        })?;
    }
    Ok(paths)
}

/// The routing of the pairs: the demand of each goes in even parts over its paths of the rounds.
///
/// Each round has the least path of each pair by its lengths. `Memory` comes where memory is wanting.
pub fn routing_over(
    alloc: Global,
    net: &Network,
    rounds: &[FlowRound],
    pairs: &Pairs,
) -> Result<Routing, Memory>
    requires count { length rounds.now ≡ ROUNDS }
    requires paths { All (λ r. AreLeastPaths net.now r.lengths pairs.now.list (paths_of_round r)) rounds.now }
    ensures { IfOk result (λ r. IsRoutingBy (IsRoundsSplit rounds.now) ROUNDS net.now pairs.now.list r.routes) }
{
    let list = pairs.list.as_slice();
    let mut routes = Vec::with_capacity(alloc, list.len())?;
    for p in 0..list.len() {
        let paths = paths_of_pair(alloc, rounds, p)?;
        let shares = even_mix(alloc, paths)?;
        routes.push(PairRoutes {
            pair: list[p],
            paths: Items::new(shares),
        })?;
    }
    Ok(Routing {
        routes: Items::new(routes),
    })
}
