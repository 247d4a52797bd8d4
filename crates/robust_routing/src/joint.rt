//! The sweeps: each goes over the links and then over the pairs, and the routing of the best one is kept.
ghost use Rattle.std.specs.Prelude.{◌≡◌, ◌≤◌, All, IfOk, IsTrue, OnOk};
ghost use Rattle.te_model.specs.Network.{is_well_formed};
ghost use Rattle.shortest_path.specs.declared.rows.Direction.TheVariants.{Backward};
ghost use Rattle.shortest_path.specs.Links.{every_link};
ghost use Rattle.shortest_path.specs.Rows.{IsSearchGraph};
ghost use Rattle.routing.specs.Routes.{HasFewPaths, IsRoutingOf};
ghost use Rattle.scheme.specs.Reach.{IsPairOf};
ghost use Rattle.robust_routing.specs.Joint.{ArePathsOfPairs, IsJoint, IsRound};
ghost use Rattle.robust_routing.specs.Weights.{AreWeightsOfLinks};

use crate::links::sweep_links;
use crate::lowering::lower_rates;
use crate::pairs::sweep_pairs;
use crate::rates::PathRates;
use crate::round::Round;
use crate::split::routing_of;
use crate::start::{inverse_capacities, move_to_least, rates_of};
use crate::sweep::{SWEEPS, sweep_of};
use crate::tables::{Tables, first_tables, write_shares};
use crate::weights::first_weights;
use routing::Routing;
use shortest_path::{Direction, Searches};
use std::alloc::Global;
use std::mem;
use te_model::{Items, Memory, Network, Pair};

/// Where the sweeps stand.
#[derive(Drop)]
pub struct Joint {
    /// The weights of the links in the certificate of each link.
    pub weights: Vec<Items<u64>>,
    /// The paths of each pair and its rates over them.
    pub rates: Vec<PathRates>,
    pub tables: Tables,
    /// Searches along links in the network, and against them.
    pub along: Searches,
    pub against: Searches,
    /// Marks by which every link is open.
    pub every: Vec<bool>,
    /// The routing of the best sweep, the weights that prove its ratio, and that ratio, in millionths.
    pub best: Routing,
    pub proving: Vec<Items<u64>>,
    pub least: Option<u64>,
}

/// The least path of each pair by inverse capacities, or its first path in the routing where that is no longer.
///
/// The searches are against links, and every link is open.
fn first_paths(
    alloc: Global,
    net: &Network,
    pairs: &[Pair],
    searches: &mut Searches,
    open: &[bool],
    start: &Routing,
) -> Result<Vec<PathRates>, Memory>
    requires network { IsTrue (is_well_formed net.now) }
    requires pairs { All (IsPairOf net.now) pairs.now }
    requires against { IsSearchGraph net.now Backward searches.old }
    requires every { «open».now ≡ every_link net.now }
    requires routing { IsRoutingOf net.now pairs.now start.now.routes }
    ensures same { searches.new ≡ searches.old }
    ensures rates { IfOk result (λ l. ArePathsOfPairs net.now 1 pairs.now l.items) }
{
    let sweep = sweep_of(0, None);
    let round = Round { net, pairs, sweep };
    let lengths = inverse_capacities(alloc, net)?;
    let mut rates = rates_of(alloc, net, pairs, start)?;
    move_to_least(alloc, &round, searches, open, &lengths, &mut rates)?;
    Ok(rates)
}

/// Where the sweeps begin, with one path for each pair: its least one by inverse capacities.
fn begin(alloc: Global, net: &Network, pairs: &[Pair], start: Routing) -> Result<Joint, Memory>
    requires network { IsTrue (is_well_formed net.now) }
    requires pairs { All (IsPairOf net.now) pairs.now }
    requires routing { IsRoutingOf net.now pairs.now start.routes }
    requires few { HasFewPaths 1 start.routes }
    ensures { IfOk result (IsJoint net.now pairs.now 1) }
{
    let links = net.links.as_slice().len();
    let weights = first_weights(alloc, net)?;
    let proving = first_weights(alloc, net)?;
    let tables = first_tables(alloc, links, pairs.len())?;
    let along = Searches::with_orders(alloc, net, Direction::Forward)?;
    let mut against = Searches::with_orders(alloc, net, Direction::Backward)?;
    let every = vec![in alloc; true; links]?;
    let rates = first_paths(alloc, net, pairs, &mut against, &every, &start)?;
    Ok(Joint {
        weights,
        rates,
        tables,
        along,
        against,
        every,
        best: start,
        proving,
        least: None,
    })
}

/// Puts the weights after a sweep in place of those before it. Where these proved the least ratio so far, this one, it keeps them
/// and the routing of the rates.
fn keep_best(
    alloc: Global,
    net: &Network,
    pairs: &[Pair],
    limit: usize,
    joint: &mut Joint,
    after: Vec<Items<u64>>,
    ratio: u64,
) -> Result<(), Memory>
    requires limit { limit ≤ 32 }
    requires joint { IsJoint net.now pairs.now limit joint.old }
    requires weights { AreWeightsOfLinks net.now after.items }
    ensures { OnOk result (IsJoint net.now pairs.now limit joint.new) }
{
    let is_better = match joint.least {
        Some(least) => ratio < least,
        None => true,
    };
    let before = mem::replace(&mut joint.weights, after);
    if is_better {
        joint.best = routing_of(alloc, net, pairs, limit, &joint.rates)?;
        joint.proving = before;
        joint.least = Some(ratio);
    }
    Ok(())
}

/// Takes a sweep.
fn take_sweep(alloc: Global, round: &Round, limit: usize, joint: &mut Joint) -> Result<(), Memory>
    requires round { IsRound round.now }
    requires limit { (1 ≤ limit) × (limit ≤ 32) }
    requires joint { IsJoint round.now.net.now round.now.pairs.now limit joint.old }
    ensures { OnOk result (IsJoint round.now.net.now round.now.pairs.now limit joint.new) }
{
    write_shares(&mut joint.tables.shares, &joint.rates);
    let (after, ratio) = sweep_links(
        alloc,
        round,
        &mut joint.along,
        &joint.weights,
        &joint.tables.shares,
        &mut joint.tables.quotients,
    )?;
    keep_best(alloc, round.net, round.pairs, limit, joint, after, ratio)?;
    lower_rates(alloc, round.sweep, &joint.tables, &mut joint.rates)?;
    sweep_pairs(
        alloc,
        round,
        &mut joint.against,
        &joint.every,
        limit,
        &mut joint.tables,
        &mut joint.rates,
    )
}

/// Takes all sweeps.
fn take_sweeps(
    alloc: Global,
    net: &Network,
    pairs: &[Pair],
    limit: usize,
    joint: &mut Joint,
) -> Result<(), Memory>
    requires network { IsTrue (is_well_formed net.now) }
    requires pairs { All (IsPairOf net.now) pairs.now }
    requires limit { (1 ≤ limit) × (limit ≤ 32) }
    requires joint { IsJoint net.now pairs.now limit joint.old }
    ensures { OnOk result (IsJoint net.now pairs.now limit joint.new) }
{
    for number in 0..SWEEPS {
        let sweep = sweep_of(number, joint.least);
        let round = Round { net, pairs, sweep };
        take_sweep(alloc, &round, limit, joint)?;
    }
    Ok(())
}

/// The routing of the sweep that proves the least ratio, where the sweeps begin with a routing that gives each pair one path, and
/// the weights of the links for each link that prove it.
///
/// No pair has more paths than the limit, which is from 1 to 32. `Memory` comes where memory is wanting.
pub fn best_sweep(
    alloc: Global,
    net: &Network,
    pairs: &[Pair],
    limit: usize,
    start: Routing,
) -> Result<(Routing, Items<Items<u64>>), Memory>
    requires network { IsTrue (is_well_formed net.now) }
    requires pairs { All (IsPairOf net.now) pairs.now }
    requires limit { (1 ≤ limit) × (limit ≤ 32) }
    requires routing { IsRoutingOf net.now pairs.now start.routes }
    requires few { HasFewPaths 1 start.routes }
    ensures routing { IfOk result (λ f. IsRoutingOf net.now pairs.now f.0.routes) }
    ensures few { IfOk result (λ f. HasFewPaths limit f.0.routes) }
    ensures weights { IfOk result (λ f. AreWeightsOfLinks net.now f.1) }
{
    let mut joint = begin(alloc, net, pairs, start)?;
    take_sweeps(alloc, net, pairs, limit, &mut joint)?;
    Ok((joint.best, Items::new(joint.proving)))
}
