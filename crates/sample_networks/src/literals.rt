//! Networks, pairs, paths and demands, each made from a list of names or numbers.
ghost use Rattle.std.specs.Prelude.{◌≡◌, IfOk, map};
ghost use Rattle.sample_networks.specs.Literals.{link_of, network_with, pair_of, routes_of, share_of};

use std::alloc::{AllocError, Global};
use te_model::{Items, Link, Matrix, Name, Network, Pair, PairRoutes, Pairs, PathShare};

/// The link numbers of a path, and its weight in millionths of the demand.
pub type WeightedPath<'a> = (&'a [u32], u64);

fn names(alloc: Global, list: &[&str]) -> Result<Vec<Name>, AllocError>
    ensures { IfOk result (λ n. n.items ≡ map (λ s. s.now) list.now) }
{
    let mut names = Vec::new(alloc);
    for name in list {
        names.push(Name::new(name.to_string(alloc)?))?;
    }
    Ok(names)
}

fn links(alloc: Global, list: &[(u32, u32, u64, u32)]) -> Result<Vec<Link>, AllocError>
    ensures { IfOk result (λ l. l.items ≡ map link_of list.now) }
{
    let mut links = Vec::new(alloc);
    for (tail, head, capacity, cost) in list {
        links.push(Link {
            tail: *tail,
            head: *head,
            capacity: *capacity,
            cost: *cost,
        })?;
    }
    Ok(links)
}

/// The network of these nodes, and of these links: tail, head, capacity and cost of each.
pub fn network(
    alloc: Global,
    nodes: &[&str],
    ends: &[(u32, u32, u64, u32)],
) -> Result<Network, AllocError>
    ensures { IfOk result (λ n. n ≡ network_with (map (λ s. s.now) nodes.now) ends.now) }
{
    let names = names(alloc, nodes)?;
    let links = links(alloc, ends)?;
    Ok(Network {
        names: Items::new(names),
        links: Items::new(links),
    })
}

/// The pairs of these sources and destinations.
pub fn pairs(alloc: Global, ends: &[(u32, u32)]) -> Result<Pairs, AllocError>
    ensures { IfOk result (λ p. p.list ≡ map pair_of ends.now) }
{
    let mut list = Vec::new(alloc);
    for (src, dst) in ends {
        list.push(Pair {
            src: *src,
            dst: *dst,
        })?;
    }
    Ok(Pairs {
        list: Items::new(list),
    })
}

/// The matrix of these demands.
pub fn matrix(alloc: Global, demand: &[u64]) -> Result<Matrix, AllocError>
    ensures { IfOk result (λ m. m.demand ≡ demand.now) }
{
    let demand = Vec::from_slice(alloc, demand)?;
    Ok(Matrix {
        demand: Items::new(demand),
    })
}

/// These paths, each with its weight.
pub fn weighted_paths(alloc: Global, paths: &[WeightedPath]) -> Result<Vec<PathShare>, AllocError>
    ensures { IfOk result (λ s. s.items ≡ map (λ p. share_of p.0.now p.1) paths.now) }
{
    let mut shares = Vec::new(alloc);
    for (links, weight) in paths {
        shares.push(PathShare {
            links: Items::new(links.to_vec(alloc)?),
            weight: *weight,
        })?;
    }
    Ok(shares)
}

/// These pairs: the source, the destination and the paths of each.
pub fn weighted_routes(
    alloc: Global,
    pairs: &[(u32, u32, &[WeightedPath])],
) -> Result<Items<PairRoutes>, AllocError>
    ensures { IfOk result (λ r. r ≡ map (λ q. routes_of q.0 q.1 (map (λ p. share_of p.0.now p.1) q.2.now)) pairs.now) }
{
    let mut routes = Vec::new(alloc);
    for (src, dst, paths) in pairs {
        let paths = weighted_paths(alloc, *paths)?;
        routes.push(PairRoutes {
            pair: Pair {
                src: *src,
                dst: *dst,
            },
            paths: Items::new(paths),
        })?;
    }
    Ok(Items::new(routes))
}
