//! The rounds, one after the other.
ghost use Rattle.std.specs.Prelude.{◌≡◌, All, IfOk, IsTrue, length, map};
ghost use Rattle.te_model.specs.Network.{is_well_formed};
ghost use Rattle.routing.specs.Routes.{AreDemands, HasFewPaths, IsRoutingOf};
ghost use Rattle.scheme.specs.Reach.{AllReached, ArePairsOf};
ghost use Rattle.mcf_lengths.specs.Rounds.{AreLengths, AreRoundLengths, AreFlowRounds, IsRoundsRouting};

use crate::loads::loads_of;
use crate::paths::destinations;
use crate::round::{FlowRound, ROUNDS, make_round};
use crate::split::routing_over;
use multiplicative_lengths::{first_multipliers, greatest_usage, grow};
use routing::Routing;
use std::alloc::Global;
use te_model::{Items, Matrix, Memory, Network, Pairs};

/// The rounds: each pair takes its least path by the lengths of a round, and the lengths of the next
/// one grow with the demands that then lie on the links, over four times the greatest usage so far.
///
/// Each pair has a path, and `matrix` has one demand for each pair. `Memory` comes where memory is
/// wanting.
pub fn make_rounds(
    alloc: Global,
    net: &Network,
    pairs: &Pairs,
    matrix: &Matrix,
) -> Result<Vec<FlowRound>, Memory>
    requires network { IsTrue (is_well_formed net.now) }
    requires pairs { ArePairsOf net.now pairs.now.list }
    requires reached { AllReached net.now pairs.now.list }
    requires demands { AreDemands (length pairs.now.list) matrix.now.demand }
    ensures { IfOk result (λ r. AreFlowRounds net.now pairs.now.list matrix.now.demand r.items) }
{
    let wanted = destinations(alloc, net, pairs)?;
    let mut multipliers = first_multipliers(alloc, net)?;
    let mut most = 1;
    let mut rounds = Vec::new(alloc);
    for _round in 0..ROUNDS {
        let round = make_round(alloc, net, pairs, &wanted, &multipliers)?;
        let loads = loads_of(alloc, net, matrix, round.paths.as_slice())?;
        most = most.max(greatest_usage(net, &loads));
        multipliers = grow(alloc, net, &loads, 4 * most, &multipliers)?;
        rounds.push(round)?;
    }
    Ok(rounds)
}

/// The lengths of the rounds, in their order.
fn lengths_in(alloc: Global, rounds: Vec<FlowRound>) -> Result<Vec<Items<u64>>, Memory>
    ensures { IfOk result (λ l. l.items ≡ map (λ r. r.lengths) rounds.items) }
{
    let mut lengths = Vec::with_capacity(alloc, rounds.len())?;
    for round in rounds {
        lengths.push(round.lengths)?;
    }
    Ok(lengths)
}

/// The routing of the rounds, by which the demand of a pair goes in even parts over its paths of the
/// rounds, and the lengths of each round, 1 to 2^28, one for each link.
///
/// Each pair has a path, and `matrix` has one demand for each pair. The units of a pair that do not
/// divide go to its first rounds. `Memory` comes where memory is wanting.
pub fn rounds_routing(
    alloc: Global,
    net: &Network,
    pairs: &Pairs,
    matrix: &Matrix,
) -> Result<(Routing, Vec<Items<u64>>), Memory>
    requires network { IsTrue (is_well_formed net.now) }
    requires pairs { ArePairsOf net.now pairs.now.list }
    requires reached { AllReached net.now pairs.now.list }
    requires demands { AreDemands (length pairs.now.list) matrix.now.demand }
    ensures rounds { IfOk result (λ r. IsRoundsRouting net.now pairs.now.list matrix.now.demand r.0.routes) }
    ensures routing { IfOk result (λ r. IsRoutingOf net.now pairs.now.list r.0.routes) }
    ensures few { IfOk result (λ r. HasFewPaths ROUNDS r.0.routes) }
    ensures lengths { IfOk result (λ r. AreRoundLengths net.now pairs.now.list matrix.now.demand r.1.items) }
    ensures limits { IfOk result (λ r. All (AreLengths net.now) r.1.items) }
{
    let rounds = make_rounds(alloc, net, pairs, matrix)?;
    let routing = routing_over(alloc, net, &rounds, pairs)?;
    let lengths = lengths_in(alloc, rounds)?;
    Ok((routing, lengths))
}
