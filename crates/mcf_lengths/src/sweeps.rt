//! Routings over all paths by sweeps.
ghost use Rattle.std.specs.Prelude.{◌≡◌, ◌^◌, ◌<◌, ◌≤◌, List, IfOk, IsTrue, length, map};
ghost use Rattle.te_model.specs.declared.route.PairRoutes.{PairRoutes};
ghost use Rattle.te_model.specs.Network.{is_well_formed, link_count};
ghost use Rattle.routing.specs.Routes.{AreDemands, HasFewPaths, IsRoutingOf};
ghost use Rattle.routing.specs.Utilisation.{parts};
ghost use Rattle.shortest_path.specs.declared.rows.Direction.TheVariants.{Forward};
ghost use Rattle.shortest_path.specs.Rows.{IsSearchGraph};
ghost use Rattle.scheme.specs.Reach.{AllReached, ArePairsOf};
ghost use Rattle.centred_steps.specs.Weights.{AreWeightsUpTo};
ghost use Rattle.rate_sweeps.specs.Descents.{BothKeep, IsDescent};
ghost use Rattle.rate_sweeps.specs.Sweeps.{ArePathsOfPairs, IsDualState, links_in};
ghost use Rattle.mcf_lengths.specs.Rounds.{AreLengths};
ghost use Rattle.mcf_lengths.specs.Sweeps.{AreCommodities, AreLeastSweeps, IsFewRouting, IsNoWorse};

use crate::paths::{destinations, least_paths, least_paths_with};
use crate::trees::load_least_ways;
use path_budget::trim;
use rate_sweeps::{
    BOUND_STAGES, COUNTED, Descent, DualState, FIRST_BOUND_DIVISOR, FIRST_KEPT_DIVISOR,
    FIRST_STAGE_DIVISOR, MAX_DIVISOR, SECOND_KEPT_DIVISOR, STAGES, SWEEPS, Sweep, TURNS, UNCOUNTED,
    add_counted, end_sweep, first_descent, first_dual_state, is_over, lesser, next_lengths, offer,
    routing_by, take_sweep, take_turn,
};
use routing::Routing;
use shortest_path::{Direction, Searches};
use std::alloc::Global;
use te_model::{Items, Matrix, Memory, Network, Pairs, Path};

/// How many paths of a pair the moves start from at most.
const STARTING_PATHS: u32 = 28;

/// What sweeps route: the demands of the pairs of a network.
#[derive(Clone, Copy)]
struct Commodities<'a> {
    net: &'a Network,
    pairs: &'a Pairs,
    /// Marks the nodes that are destinations of the pairs.
    wanted: &'a [bool],
    matrix: &'a Matrix,
    /// How many paths of a pair the moves start from at most.
    limit: u32,
}

impl<'a> Commodities<'a> {
    /// The sweeps of a stage that count. In each the pairs take their least paths.
    fn stage(
        &self,
        alloc: Global,
        state: &mut DualState,
        step_divisor: u64,
    ) -> Result<Vec<Sweep>, Memory>
        requires commodities { AreCommodities self.now }
        requires state { IsDualState self.now.net.now state.old }
        requires step_divisor { (1 ≤ step_divisor) × (step_divisor ≤ 128) }
        ensures sweeps { IfOk result (λ s. AreLeastSweeps 30 self.now.net.now self.now.pairs.now.list s.items) }
        ensures state { IsDualState self.now.net.now state.new }
    {
        let mut searches = Searches::with_orders(alloc, self.net, Direction::Backward)?;
        let mut sweeps = Vec::with_capacity(alloc, COUNTED)?;
        for i in 0..UNCOUNTED + COUNTED {
            let lengths = &state.lengths;
            let paths = least_paths_with(
                alloc,
                self.net,
                self.pairs,
                self.wanted,
                &mut searches,
                lengths,
            )?;
            let weight = take_sweep(alloc, self.net, self.matrix, &paths, state, step_divisor)?;
            add_counted(&mut sweeps, i, weight, paths)?;
        }
        Ok(sweeps)
    }

    /// Sweeps of a stage of which only the loads are made: each pair goes over a least way.
    fn sweep_loads(
        &self,
        alloc: Global,
        searches: &mut Searches,
        state: &mut DualState,
        step_divisor: u64,
    ) -> Result<(), Memory>
        requires commodities { AreCommodities self.now }
        requires along { IsSearchGraph self.now.net.now Forward searches.old }
        requires state { IsDualState self.now.net.now state.old }
        requires step_divisor { (1 ≤ step_divisor) × (step_divisor ≤ 128) }
        ensures state { IsDualState self.now.net.now state.new }
        ensures same { searches.new ≡ searches.old }
    {
        for _ in 0..SWEEPS {
            load_least_ways(
                alloc,
                self.net,
                self.pairs,
                self.matrix,
                searches,
                &state.lengths,
                &mut state.loads,
            )?;
            end_sweep(alloc, self.net, state, step_divisor)?;
        }
        Ok(())
    }

    /// So many stages of such sweeps, in the first of which steps are divided by `first_divisor`.
    fn sweep_stages(
        &self,
        alloc: Global,
        state: &mut DualState,
        stages: usize,
        first_divisor: u64,
    ) -> Result<(), Memory>
        requires commodities { AreCommodities self.now }
        requires state { IsDualState self.now.net.now state.old }
        requires first_divisor { (1 ≤ first_divisor) × (first_divisor ≤ 128) }
        ensures { IsDualState self.now.net.now state.new }
    {
        let mut searches = Searches::with_orders(alloc, self.net, Direction::Forward)?;
        let mut step_divisor = first_divisor;
        for _ in 0..stages {
            self.sweep_loads(alloc, &mut searches, state, step_divisor)?;
            step_divisor = (2 * step_divisor).min(MAX_DIVISOR);
        }
        Ok(())
    }

    /// The routing of a stage of sweeps, of the pairs of the given one.
    fn mix_of_stage(
        &self,
        alloc: Global,
        like: &Routing,
        state: &mut DualState,
        step_divisor: u64,
    ) -> Result<Routing, Memory>
        requires commodities { AreCommodities self.now }
        requires like { IsFewRouting self.now like.now.routes }
        requires state { IsDualState self.now.net.now state.old }
        requires step_divisor { (1 ≤ step_divisor) × (step_divisor ≤ 128) }
        ensures routing { IfOk result (λ r. IsFewRouting self.now r.routes) }
        ensures state { IsDualState self.now.net.now state.new }
    {
        let sweeps = self.stage(alloc, state, step_divisor)?;
        let mixed = routing_by(alloc, self.net, &sweeps, like)?;
        let heaviest = trim(alloc, &mixed, self.limit)?;
        Ok(heaviest)
    }

    /// The better one of the routings of two stages of sweeps, of the pairs of the given one. A stage may go astray.
    fn mix_of_sweeps(
        &self,
        alloc: Global,
        like: &Routing,
        state: &mut DualState,
    ) -> Result<Routing, Memory>
        requires commodities { AreCommodities self.now }
        requires like { IsFewRouting self.now like.now.routes }
        requires state { IsDualState self.now.net.now state.old }
        ensures routing { IfOk result (λ r. IsFewRouting self.now r.routes) }
        ensures state { IsDualState self.now.net.now state.new }
    {
        self.sweep_stages(alloc, state, STAGES, FIRST_STAGE_DIVISOR)?;
        let first = self.mix_of_stage(alloc, like, state, FIRST_KEPT_DIVISOR)?;
        let second = self.mix_of_stage(alloc, like, state, SECOND_KEPT_DIVISOR)?;
        let best = lesser(alloc, self.net, self.matrix, first, second)?;
        Ok(best)
    }

    /// The lengths of the next turn, which are offered, and the least paths by them.
    fn least_turn(
        &self,
        alloc: Global,
        descent: &Descent,
        state: &mut DualState,
    ) -> Result<(Vec<u64>, Vec<Path>), Memory>
        requires commodities { AreCommodities self.now }
        requires routing { IsRoutingOf self.now.net.now self.now.pairs.now.list descent.now.routing.routes }
        requires state { IsDualState self.now.net.now state.old }
        ensures count { IfOk result (λ x. length x.0.items ≡ link_count self.now.net.now) }
        ensures lengths { IfOk result (λ x. AreWeightsUpTo (2 ^ 27) x.0.items) }
        ensures paths { IfOk result (λ x. ArePathsOfPairs self.now.net.now descent.now.routing.routes (map links_in x.1.items)) }
        ensures state { IsDualState self.now.net.now state.new }
    {
        let lengths = next_lengths(alloc, self.net, self.matrix, descent)?;
        let paths = least_paths(alloc, self.net, self.pairs, self.wanted, &lengths)?;
        offer(alloc, self.net, self.matrix, &paths, &lengths, state)?;
        Ok((lengths, paths))
    }

    /// The descent after a turn to the least paths. Their lengths are offered.
    fn turn(
        &self,
        alloc: Global,
        descent: Descent,
        state: &mut DualState,
    ) -> Result<Descent, Memory>
        requires commodities { AreCommodities self.now }
        requires descent { (start : List PairRoutes) × IsRoutingOf self.now.net.now self.now.pairs.now.list start × IsDescent self.now.net.now self.now.matrix.now.demand start descent }
        requires state { IsDualState self.now.net.now state.old }
        ensures descent { (start : List PairRoutes) → IsDescent self.now.net.now self.now.matrix.now.demand start descent → IfOk result (IsDescent self.now.net.now self.now.matrix.now.demand start) }
        ensures few { BothKeep (HasFewPaths 28) descent → IfOk result (BothKeep (HasFewPaths 28)) }
        ensures state { IsDualState self.now.net.now state.new }
    {
        let limit = self.limit as usize;
        let (lengths, paths) = self.least_turn(alloc, &descent, state)?;
        take_turn(
            alloc,
            self.net,
            self.matrix,
            descent,
            &paths,
            &lengths,
            limit,
        )
    }

    /// The end of a descent from the given routing, by turns to the least paths.
    fn end_of_descent(
        &self,
        alloc: Global,
        start: Routing,
        state: &mut DualState,
    ) -> Result<Descent, Memory>
        requires commodities { AreCommodities self.now }
        requires start { IsFewRouting self.now start.routes }
        requires state { IsDualState self.now.net.now state.old }
        ensures descent { IfOk result (IsDescent self.now.net.now self.now.matrix.now.demand start.routes) }
        ensures few { IfOk result (BothKeep (HasFewPaths 28)) }
        ensures state { IsDualState self.now.net.now state.new }
    {
        let mut descent = first_descent(alloc, self.net, self.matrix, start)?;
        for _ in 0..TURNS {
            if is_over(descent.pace) {
                return Ok(descent);
            }
            descent = self.turn(alloc, descent, state)?;
        }
        Ok(descent)
    }

    /// The given routing, or a better one by sweeps and a descent. The sweeps after the descent begin with the lengths of its end,
    /// which are great on the links that bound the utilisation.
    fn best_routing(
        &self,
        alloc: Global,
        start: Routing,
        state: &mut DualState,
    ) -> Result<Routing, Memory>
        requires commodities { AreCommodities self.now }
        requires start { IsFewRouting self.now start.routes }
        requires state { IsDualState self.now.net.now state.old }
        ensures routing { IfOk result (λ r. IsNoWorse self.now start.routes r.routes) }
        ensures state { IsDualState self.now.net.now state.new }
    {
        let mixed = self.mix_of_sweeps(alloc, &start, state)?;
        let descent = self.end_of_descent(alloc, mixed, state)?;
        state.lengths = next_lengths(alloc, self.net, self.matrix, &descent)?;
        self.sweep_stages(alloc, state, BOUND_STAGES, FIRST_BOUND_DIVISOR)?;
        let best = lesser(alloc, self.net, self.matrix, start, descent.best)?;
        Ok(best)
    }

    /// The given routing, or a better one, and lengths to bound the utilisation of every routing.
    fn bounded_routing(
        &self,
        alloc: Global,
        start: Routing,
    ) -> Result<(Routing, Items<u64>), Memory>
        requires commodities { AreCommodities self.now }
        requires start { IsFewRouting self.now start.routes }
        ensures routing { IfOk result (λ r. IsNoWorse self.now start.routes r.0.routes) }
        ensures lengths { IfOk result (λ r. AreLengths self.now.net.now r.1) }
    {
        let most = start.greatest_utilisation(alloc, self.net, self.matrix)?;
        let mut state = first_dual_state(alloc, self.net)?;
        // Where no link is used there is nothing to better.
        if most == 0 {
            return Ok((start, Items::new(state.best_lengths)));
        }
        let routing = self.best_routing(alloc, start, &mut state)?;
        Ok((routing, Items::new(state.best_lengths)))
    }
}

/// The given routing, or a better one by sweeps and a descent, and lengths to bound the utilisation of every routing.
///
/// Each pair has a path, and `matrix` has one demand for each. `Memory` comes where memory is wanting.
pub fn sweep(
    alloc: Global,
    net: &Network,
    pairs: &Pairs,
    matrix: &Matrix,
    start: Routing,
) -> Result<(Routing, Items<u64>), Memory>
    requires network { IsTrue (is_well_formed net.now) }
    requires pairs { ArePairsOf net.now pairs.now.list }
    requires reached { AllReached net.now pairs.now.list }
    requires demands { AreDemands (length pairs.now.list) matrix.now.demand }
    requires start { IsRoutingOf net.now pairs.now.list start.routes }
    requires few { HasFewPaths 28 start.routes }
    ensures routing { IfOk result (λ r. IsRoutingOf net.now pairs.now.list r.0.routes) }
    ensures few { IfOk result (λ r. HasFewPaths 28 r.0.routes) }
    ensures no_greater { IfOk result (λ r. parts net.now r.0.routes matrix.now.demand ≤ parts net.now start.routes matrix.now.demand) }
    ensures lengths { IfOk result (λ r. AreLengths net.now r.1) }
{
    let wanted = destinations(alloc, net, pairs)?;
    let commodities = Commodities {
        net,
        pairs,
        wanted: &wanted,
        matrix,
        limit: STARTING_PATHS,
    };
    commodities.bounded_routing(alloc, start)
}
