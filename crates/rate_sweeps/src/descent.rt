//! Descents: turns that take weight from dear paths to cheap ones by lengths that are great on the most used links.
ghost use Rattle.std.specs.Prelude.{◌≡◌, ◌^◌, ◌<◌, ◌≤◌, All, IfOk, IsTrue, List, length, map};
ghost use Rattle.te_model.specs.declared.route.PairRoutes.{PairRoutes};
ghost use Rattle.te_model.specs.Network.{is_well_formed, link_count};
ghost use Rattle.te_model.specs.PathRouting.{IsPathRouting};
ghost use Rattle.routing.specs.Routes.{AreDemands};
ghost use Rattle.routing.specs.Utilisation.{parts};
ghost use Rattle.centred_steps.specs.Weights.{AreWeightsUpTo};
ghost use Rattle.rate_sweeps.specs.Descents.{IsDescent, IsTurn, MakesTurn, first_pace};
ghost use Rattle.rate_sweeps.specs.Lengths.{AreLengthsOfRouting};
ghost use Rattle.rate_sweeps.specs.Sweeps.{ArePathsOfPairs, links_in};

use crate::pace::{Pace, first_pace, next_pace};
use crate::shifting::shift_dearest;
use crate::usage::lengths_under;
use routing::Routing;
use std::alloc::Global;
use te_model::{Matrix, Memory, Network, Path};

/// Where a descent stands.
#[derive(Drop)]
pub struct Descent {
    /// The routing of the next turn.
    pub routing: Routing,
    /// The routing of the least greatest utilisation so far.
    pub best: Routing,
    /// That utilisation, in millionths of the capacity, rounded up.
    pub least: u128,
    /// How the descent goes on.
    pub pace: Pace,
}

/// A descent before its first turn. `Memory` comes where memory is wanting.
pub fn first_descent(
    alloc: Global,
    net: &Network,
    matrix: &Matrix,
    start: Routing,
) -> Result<Descent, Memory>
    requires network { IsTrue (is_well_formed net.now) }
    requires start { IsPathRouting net.now start.routes }
    requires pairs { length start.routes < 2 ^ 32 }
    requires demands { AreDemands (length start.routes) matrix.now.demand }
    ensures descent { IfOk result (IsDescent net.now matrix.now.demand start.routes) }
    ensures routing { IfOk result (λ d. d.routing.routes ≡ start.routes) }
    ensures best { IfOk result (λ d. d.best.routes ≡ start.routes) }
    ensures pace { IfOk result (λ d. d.pace ≡ first_pace (parts net.now start.routes matrix.now.demand)) }
{
    let best = start.copy(alloc)?;
    let least = best.greatest_utilisation(alloc, net, matrix)?;
    Ok(Descent {
        routing: start,
        best,
        least,
        pace: first_pace(least),
    })
}

/// The lengths of the next turn, from 1 to 2^27. `Memory` comes where memory is wanting.
pub fn next_lengths(
    alloc: Global,
    net: &Network,
    matrix: &Matrix,
    descent: &Descent,
) -> Result<Vec<u64>, Memory>
    requires network { IsTrue (is_well_formed net.now) }
    requires pairs { length descent.now.routing.routes < 2 ^ 32 }
    requires demands { AreDemands (length descent.now.routing.routes) matrix.now.demand }
    ensures count { IfOk result (λ l. length l.items ≡ link_count net.now) }
    ensures lengths { IfOk result (λ l. AreWeightsUpTo (2 ^ 27) l.items) }
    ensures exact { IfOk result (λ l. AreLengthsOfRouting net.now matrix.now.demand descent.now.routing.routes descent.now.pace.squarings l.items) }
{
    let loads = descent.routing.loads(alloc, net, matrix)?;
    lengths_under(alloc, net, &loads, descent.pace.squarings)
}

/// The descent after a turn to the offered paths, one for each pair. Where shares become smaller, it goes on from the best routing.
///
/// No pair has more than `limit` paths, if none has at the start. `Memory` comes where memory is wanting.
pub fn take_turn(
    alloc: Global,
    net: &Network,
    matrix: &Matrix,
    descent: Descent,
    offered: &[Path],
    lengths: &[u64],
    limit: usize,
) -> Result<Descent, Memory>
    requires network { IsTrue (is_well_formed net.now) }
    requires descent { (start : List PairRoutes) × (length start < 2 ^ 32) × AreDemands (length start) matrix.now.demand × IsDescent net.now matrix.now.demand start descent }
    requires offered { ArePathsOfPairs net.now descent.routing.routes (map links_in offered.now) }
    requires count { length lengths.now ≡ link_count net.now }
    requires lengths { All (λ l. l ≤ 2 ^ 28) lengths.now }
    requires limit { 1 ≤ limit }
    ensures descent { (start : List PairRoutes) → IsDescent net.now matrix.now.demand start descent → IfOk result (IsDescent net.now matrix.now.demand start) }
    ensures turn { IfOk result (IsTurn limit (map links_in offered.now) descent) }
    ensures made { IfOk result (MakesTurn net.now matrix.now.demand lengths.now limit (map links_in offered.now) descent) }
{
    let (old, step_divisor) = (descent.pace, descent.pace.step_divisor);
    let mut routing = shift_dearest(
        alloc,
        net,
        matrix,
        descent.routing,
        offered,
        lengths,
        step_divisor,
        limit,
    )?;
    let most = routing.greatest_utilisation(alloc, net, matrix)?;
    let (mut best, mut least) = (descent.best, descent.least);
    if most < least {
        best = routing.copy(alloc)?;
        least = most;
    }
    let pace = next_pace(old, most);
    if pace.step_divisor > old.step_divisor {
        routing = best.copy(alloc)?;
    }
    Ok(Descent {
        routing,
        best,
        least,
        pace,
    })
}
