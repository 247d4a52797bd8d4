//! The least path of each pair by the lengths of a round.
ghost use Rattle.std.specs.Prelude.{◌≡◌, ◌<◌, ◌≤◌, ◌^◌, ℕ, List, Some, All, IfOk, IsTrue, length, map};
ghost use Rattle.te_model.specs.Network.{is_well_formed, link_count, node_count};
ghost use Rattle.shortest_path.specs.declared.rows.Direction.TheVariants.{Backward};
ghost use Rattle.shortest_path.specs.Links.{HasSoundLinks};
ghost use Rattle.shortest_path.specs.Paths.{HasPath, IsLeastPath};
ghost use Rattle.shortest_path.specs.Rows.{IsSearchGraph};
ghost use Rattle.scheme.specs.Reach.{AllReached, ArePairsOf, IsPairOf};
ghost use Rattle.mcf_lengths.specs.Rounds.{AreLeastPaths};
ghost use Rattle.mcf_lengths.specs.Ways.{AreLeastWays, AreWaysToward, MarksDestinations};

use shortest_path::{Direction, Searches, first_links, walk_along};
use std::alloc::Global;
use te_model::{Items, Memory, Network, Pair, Pairs, Path};

/// Marks the nodes that are destinations of the pairs.
pub fn destinations(alloc: Global, net: &Network, pairs: &Pairs) -> Result<Vec<bool>, Memory>
    requires pairs { ArePairsOf net.now pairs.now.list }
    ensures { IfOk result (λ m. MarksDestinations net.now pairs.now.list m.items) }
{
    let list = pairs.list.as_slice();
    let mut marks = vec![in alloc; false; net.names.as_slice().len()]?;
    for p in 0..list.len() {
        marks[list[p].dst as usize] = true;
    }
    Ok(marks)
}

/// The least ways to a node.
#[derive(Drop)]
pub struct LeastWays {
    /// The least sum of lengths from each node, or `None` where no way leads from it.
    pub sums: Items<Option<u64>>,
    /// The first link of the least way from each node that has one.
    pub firsts: Items<Option<u32>>,
}

/// The least ways to the node by the lengths, where they are wanted. The searches are against links in the network.
fn ways_where(
    alloc: Global,
    net: &Network,
    searches: &mut Searches,
    lengths: &[u64],
    node: u32,
    wanted: bool,
) -> Result<LeastWays, Memory>
    requires sound { HasSoundLinks net.now }
    requires against { IsSearchGraph net.now Backward searches.old }
    requires lengths { length lengths.now ≡ link_count net.now }
    requires limit { All (λ l. l ≤ 2 ^ 28) lengths.now }
    requires positive { All (λ l. 1 ≤ l) lengths.now }
    requires node { node < node_count net.now }
    ensures ways { IfOk result (λ w. IsTrue wanted → AreLeastWays net.now lengths.now node w) }
    ensures same { searches.new ≡ searches.old }
{
    if !wanted {
        return Ok(LeastWays {
            sums: Items::new(Vec::new(alloc)),
            firsts: Items::new(Vec::new(alloc)),
        });
    }
    let every = vec![in alloc; true; net.links.as_slice().len()]?;
    let mut sums: Vec<Option<u64>> = vec![in alloc; None; net.names.as_slice().len()]?;
    searches.toward(net, lengths, &every, node, &mut sums);
    let firsts = first_links(alloc, net, lengths, &every, &sums)?;
    Ok(LeastWays {
        sums: Items::new(sums),
        firsts: Items::new(firsts),
    })
}

/// The least ways to each node that is wanted, in the order of the nodes. The searches are against links in the network.
fn ways_toward(
    alloc: Global,
    net: &Network,
    searches: &mut Searches,
    lengths: &[u64],
    wanted: &[bool],
) -> Result<Vec<LeastWays>, Memory>
    requires sound { HasSoundLinks net.now }
    requires against { IsSearchGraph net.now Backward searches.old }
    requires lengths { length lengths.now ≡ link_count net.now }
    requires limit { All (λ l. l ≤ 2 ^ 28) lengths.now }
    requires positive { All (λ l. 1 ≤ l) lengths.now }
    requires wanted { length wanted.now ≡ node_count net.now }
    ensures ways { IfOk result (λ w. AreWaysToward net.now lengths.now wanted.now w.items) }
    ensures same { searches.new ≡ searches.old }
{
    let mut ways = Vec::with_capacity(alloc, wanted.len())?;
    for node in 0..wanted.len() {
        let to = ways_where(alloc, net, searches, lengths, node as u32, wanted[node])?;
        ways.push(to)?;
    }
    Ok(ways)
}

/// The least path of the pair, by the least ways to its destination.
fn path_by(alloc: Global, net: &Network, ways: &LeastWays, pair: Pair) -> Result<Path, Memory>
    requires sound { HasSoundLinks net.now }
    requires ways { (lengths : List ℕ) × AreLeastWays net.now lengths pair.dst ways.now }
    requires pair { IsPairOf net.now pair }
    requires reached { HasPath net.now pair.src pair.dst }
    ensures { (lengths : List ℕ) → AreLeastWays net.now lengths pair.dst ways.now → IfOk result (λ p. IsLeastPath net.now lengths pair.src pair.dst (Some p.links)) }
{
    let walk = walk_along(
        alloc,
        net,
        ways.sums.as_slice(),
        ways.firsts.as_slice(),
        pair.src,
        pair.dst,
    )?;
    match walk {
        Some(links) => Ok(Path {
            links: Items::new(links),
        }),
        // Some path leads from the source to the destination.
        None => Ok(Path {
            links: Items::new(Vec::new(alloc)),
        }),
    }
}

/// The least path of each pair by (sum of lengths, list of link numbers), in the order of the pairs.
/// The ways to a destination are made once for all pairs that have it.
///
/// `lengths` has one number of 1 to 2^28 for each link, and `wanted` marks the destinations of the
/// pairs. The searches are against links in the network. `Memory` comes where memory is wanting.
pub fn least_paths_with(
    alloc: Global,
    net: &Network,
    pairs: &Pairs,
    wanted: &[bool],
    searches: &mut Searches,
    lengths: &[u64],
) -> Result<Vec<Path>, Memory>
    requires network { IsTrue (is_well_formed net.now) }
    requires pairs { ArePairsOf net.now pairs.now.list }
    requires reached { AllReached net.now pairs.now.list }
    requires wanted { MarksDestinations net.now pairs.now.list wanted.now }
    requires against { IsSearchGraph net.now Backward searches.old }
    requires lengths { length lengths.now ≡ link_count net.now }
    requires limit { All (λ l. l ≤ 2 ^ 28) lengths.now }
    requires positive { All (λ l. 1 ≤ l) lengths.now }
    ensures paths { IfOk result (λ p. AreLeastPaths net.now lengths.now pairs.now.list (map (λ q. q.links) p.items)) }
    ensures same { searches.new ≡ searches.old }
{
    let ways = ways_toward(alloc, net, searches, lengths, wanted)?;
    let list = pairs.list.as_slice();
    let mut paths = Vec::with_capacity(alloc, list.len())?;
    for p in 0..list.len() {
        let pair = list[p];
        paths.push(path_by(alloc, net, &ways[pair.dst as usize], pair)?)?;
    }
    Ok(paths)
}

/// The least path of each pair, as `least_paths_with` gives them.
pub fn least_paths(
    alloc: Global,
    net: &Network,
    pairs: &Pairs,
    wanted: &[bool],
    lengths: &[u64],
) -> Result<Vec<Path>, Memory>
    requires network { IsTrue (is_well_formed net.now) }
    requires pairs { ArePairsOf net.now pairs.now.list }
    requires reached { AllReached net.now pairs.now.list }
    requires wanted { MarksDestinations net.now pairs.now.list wanted.now }
    requires lengths { length lengths.now ≡ link_count net.now }
    requires limit { All (λ l. l ≤ 2 ^ 28) lengths.now }
    requires positive { All (λ l. 1 ≤ l) lengths.now }
    ensures { IfOk result (λ p. AreLeastPaths net.now lengths.now pairs.now.list (map (λ q. q.links) p.items)) }
{
    let mut searches = Searches::new(alloc, net, Direction::Backward)?;
    let paths = least_paths_with(alloc, net, pairs, wanted, &mut searches, lengths)?;
    Ok(paths)
}
