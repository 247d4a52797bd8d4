//! The scheme.
ghost use Rattle.std.specs.Prelude.{◌≡◌, ◌^◌, ◌<◌, ◌≤◌, List, All, IfOk, IsTrue, length};
ghost use Rattle.te_model.specs.declared.route.Pair.{Pair};
ghost use Rattle.te_model.specs.declared.route.PairRoutes.{PairRoutes};
ghost use Rattle.te_model.specs.Network.{is_well_formed, link_count};
ghost use Rattle.routing.specs.Routes.{AreDemands, HasFewPaths, IsRoutingOf};
ghost use Rattle.routing.specs.Utilisation.{parts};
ghost use Rattle.mcf_lengths.specs.Flow.{IsFlowPlan};
ghost use Rattle.mcf_lengths.specs.Rounds.{IsRoundsRouting};

use crate::rounds::rounds_routing;
use crate::sweeps::sweep;
use dual_bounds::bracket;
use k_paths::Ksp;
use local_search::local_optimum;
use routing::Routing;
use scheme::{Scheme, SchemeFault};
use std::alloc::Global;
use te_model::{Bracket, Items, Matrix, Memory, Network, Pairs};

/// How many least paths by cost are the candidates of a pair.
const CANDIDATES: u32 = 4;

/// Multicommodity flow: the routing of a matrix starts from the even mix of the least paths by lengths that grow with the loads
/// (Garg and Könemann, 1998), or from a better mix of sweeps, and weight is then moved to the four least paths by cost until no
/// single move helps by a stated share (`local_search::local_optimum`).
#[derive(Clone, Copy)]
pub struct Mcf;

/// The pairs, and a routing over the four least paths by cost of each.
#[derive(Drop)]
pub struct McfPlan {
    pub pairs: Pairs,
    pub candidates: Routing,
}

/// A copy of the pairs.
fn copy_pairs(alloc: Global, pairs: &Pairs) -> Result<Pairs, Memory>
    ensures { IfOk result (λ p. p.list ≡ pairs.now.list) }
{
    let list = Vec::from_slice(alloc, pairs.list.as_slice())?;
    Ok(Pairs {
        list: Items::new(list),
    })
}

/// The routing from which the moves start, and the lengths that are offered to bound the utilisation of every routing.
fn starting_routing(
    alloc: Global,
    net: &Network,
    plan: &McfPlan,
    matrix: &Matrix,
) -> Result<(Routing, Vec<Items<u64>>), Memory>
    requires network { IsTrue (is_well_formed net.now) }
    requires plan { (pairs : List Pair) × IsFlowPlan net.now pairs plan.now × AreDemands (length pairs) matrix.now.demand }
    ensures routing { (pairs : List Pair) → IsFlowPlan net.now pairs plan.now → IfOk result (λ r. IsRoutingOf net.now pairs r.0.routes) }
    ensures routings { IfOk result (λ r. (pairs : List Pair) × IsRoutingOf net.now pairs r.0.routes × IsRoutingOf net.now pairs plan.now.candidates.routes) }
    ensures pairs { IfOk result (λ r. length r.0.routes < 2 ^ 32) }
    ensures demands { IfOk result (λ r. AreDemands (length r.0.routes) matrix.now.demand) }
    ensures few { IfOk result (λ r. HasFewPaths 28 r.0.routes) }
    ensures no_greater { (pairs : List Pair) → IsFlowPlan net.now pairs plan.now → IfOk result (λ r. (rounds : List PairRoutes) × IsRoundsRouting net.now pairs matrix.now.demand rounds × (parts net.now r.0.routes matrix.now.demand ≤ parts net.now rounds matrix.now.demand)) }
    ensures count { IfOk result (λ r. All (λ l. length l ≡ link_count net.now) r.1.items) }
    ensures limit { IfOk result (λ r. All (λ l. All (λ x. x ≤ 2 ^ 28) l) r.1.items) }
{
    let (rounds, _) = rounds_routing(alloc, net, &plan.pairs, matrix)?;
    let (start, swept) = sweep(alloc, net, &plan.pairs, matrix, rounds)?;
    let mut lengths = Vec::with_capacity(alloc, 1)?;
    lengths.push(swept)?;
    Ok((start, lengths))
}

impl Scheme for Mcf {
    ghost use Rattle.mcf_lengths.specs.Flow.{IsBalanced, IsFlowPlan};

    type Plan = McfPlan;

    type Note = Bracket;

    ghost PATHS = { 32 };

    ghost is_plan = { λ _ net pairs plan. IsFlowPlan net pairs plan };

    ghost relates = { λ _ net pairs plan demand routes note. IsBalanced net pairs plan.candidates.routes demand routes note };

    const PATHS: u32 = 32;

    fn prepare(&self, alloc: Global, net: &Network, pairs: &Pairs) -> Result<McfPlan, SchemeFault> {
        let least = Ksp { k: CANDIDATES };
        let plan = least.prepare(alloc, net, pairs)?;
        Ok(McfPlan {
            pairs: copy_pairs(alloc, pairs)?,
            candidates: plan.routing,
        })
    }

    fn route(
        &self,
        alloc: Global,
        net: &Network,
        plan: &McfPlan,
        matrix: &Matrix,
    ) -> Result<(Routing, Bracket), Memory> {
        let (start, lengths) = starting_routing(alloc, net, plan, matrix)?;
        let routing = local_optimum(alloc, net, matrix, start, &plan.candidates)?;
        let note = bracket(alloc, net, &routing, matrix, &lengths)?;
        Ok((routing, note))
    }
}
