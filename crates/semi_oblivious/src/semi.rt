//! The scheme.
ghost use Rattle.std.specs.Prelude.{◌≡◌, ◌^◌, ◌<◌, ◌≤◌, ℕ, List, All, IfOk, IsTrue, length, slice_index};
ghost use Rattle.te_model.specs.declared.route.Pair.{Pair};
ghost use Rattle.te_model.specs.LowerBound.{IsLowerBoundOnPaths};
ghost use Rattle.te_model.specs.Network.{is_well_formed, link_count};
ghost use Rattle.te_model.specs.PathRouting.{IsPathRouting};
ghost use Rattle.routing.specs.Routes.{AreDemands, HasFewPaths, IsRoutingOf};
ghost use Rattle.routing.specs.Utilisation.{parts};
ghost use Rattle.scheme.specs.Low.{HasLow};
ghost use Rattle.local_search.specs.Moves.{IsStable};
ghost use Rattle.dual_bounds.specs.GivenPaths.{IsBracketOnPaths, link_lists};
ghost use Rattle.semi_oblivious.specs.Semi.{IsAdapted, KeepsTo};

use crate::sweeps::sweep;
use crate::usage::usage_lengths;
use dual_bounds::bracket_on_paths;
use local_search::local_optimum;
use path_budget::trim;
use routing::Routing;
use scheme::{Adaptive, LowNote, Oblivious, Scheme, SchemeFault};
use std::alloc::Global;
use te_model::{Bracket, Items, Matrix, Memory, Network, Pairs};

/// Semi-oblivious routing: of each pair the `budget` heaviest paths of the base's routing are fixed, and for each matrix weight is
/// moved between them until no single move helps by a stated share (`local_search::local_optimum`).
#[derive(Drop)]
pub struct Semi<S: Oblivious + Drop> {
    pub base: S,
    /// From 1 to 32.
    pub budget: u32,
    ghost some: { 1 ≤ budget },
    ghost few: { budget ≤ 32 },
}

/// A plan of the base, and the routing over the fixed paths from which every matrix starts.
#[derive(Drop)]
pub struct SemiPlan<P: Drop> {
    pub base: P,
    pub fixed: Routing,
}

/// The routing of a matrix over the fixed paths, and lengths to bound the utilisation of all such routings.
fn adapt(
    alloc: Global,
    net: &Network,
    fixed: &Routing,
    matrix: &Matrix,
) -> Result<(Routing, Items<u64>), Memory>
    requires network { IsTrue (is_well_formed net.now) }
    requires fixed { (pairs : List Pair) × IsRoutingOf net.now pairs fixed.now.routes }
    requires pairs { length fixed.now.routes < 2 ^ 32 }
    requires demands { AreDemands (length fixed.now.routes) matrix.now.demand }
    ensures routing { (pairs : List Pair) → IsRoutingOf net.now pairs fixed.now.routes → IfOk result (λ r. IsRoutingOf net.now pairs r.0.routes) }
    ensures pairs { IfOk result (λ r. length r.0.routes ≡ length fixed.now.routes) }
    ensures few { (limit : ℕ) → HasFewPaths limit fixed.now.routes → IfOk result (λ r. HasFewPaths limit r.0.routes) }
    ensures keeps { IfOk result (λ r. KeepsTo fixed.now.routes r.0.routes) }
    ensures stable { IfOk result (λ r. IsStable net.now matrix.now.demand fixed.now.routes r.0.routes) }
    ensures no_greater { IfOk result (λ r. parts net.now r.0.routes matrix.now.demand ≤ parts net.now fixed.now.routes matrix.now.demand) }
    ensures count { IfOk result (λ r. length r.1 ≡ link_count net.now) }
    ensures small { IfOk result (λ r. All (λ x. x ≤ 2 ^ 28) r.1) }
{
    let (start, swept) = sweep(alloc, net, fixed, matrix)?;
    let routing = local_optimum(alloc, net, matrix, start, fixed)?;
    Ok((routing, swept))
}

/// The bracket of the routing, by lengths that are great on its most used links and by those that are offered.
fn bracket_by_usage(
    alloc: Global,
    net: &Network,
    fixed: &Routing,
    routing: &Routing,
    matrix: &Matrix,
    offered: Items<u64>,
) -> Result<Bracket, Memory>
    requires network { IsTrue (is_well_formed net.now) }
    requires fixed { IsPathRouting net.now fixed.now.routes }
    requires count { length routing.now.routes ≡ length fixed.now.routes }
    requires pairs { length fixed.now.routes < 2 ^ 32 }
    requires demands { AreDemands (length fixed.now.routes) matrix.now.demand }
    requires lengths { length offered ≡ link_count net.now }
    requires limit { All (λ x. x ≤ 2 ^ 28) offered }
    ensures sound { IfOk result (IsBracketOnPaths net.now fixed.now.routes routing.now.routes matrix.now.demand) }
    ensures lower { IfOk result (λ b. IsLowerBoundOnPaths net.now (length fixed.now.routes) (link_lists fixed.now.routes) (slice_index matrix.now.demand) b.low_num b.low_den) }
    ensures low { IfOk result HasLow }
{
    let mut lengths = usage_lengths(alloc, net, routing, matrix)?;
    lengths.push(offered)?;
    bracket_on_paths(alloc, net, fixed, routing, matrix, &lengths)
}

/// The routing of a matrix over the fixed paths, and its bracket.
fn route_over(
    alloc: Global,
    net: &Network,
    fixed: &Routing,
    matrix: &Matrix,
) -> Result<(Routing, Bracket), Memory>
    requires network { IsTrue (is_well_formed net.now) }
    requires fixed { (pairs : List Pair) × IsRoutingOf net.now pairs fixed.now.routes }
    requires pairs { length fixed.now.routes < 2 ^ 32 }
    requires demands { AreDemands (length fixed.now.routes) matrix.now.demand }
    ensures routing { (pairs : List Pair) → IsRoutingOf net.now pairs fixed.now.routes → IfOk result (λ r. IsRoutingOf net.now pairs r.0.routes) }
    ensures few { (limit : ℕ) → HasFewPaths limit fixed.now.routes → IfOk result (λ r. HasFewPaths limit r.0.routes) }
    ensures adapted { IfOk result (λ r. IsAdapted net.now fixed.now.routes matrix.now.demand r.0.routes r.1) }
    ensures low { IfOk result (λ r. HasLow r.1) }
{
    let (routing, swept) = adapt(alloc, net, fixed, matrix)?;
    let note = bracket_by_usage(alloc, net, fixed, &routing, matrix, swept)?;
    Ok((routing, note))
}

impl<S: Oblivious + Drop> Scheme for Semi<S> {
    ghost use Rattle.semi_oblivious.specs.Semi.{AreFixed};

    type Plan = SemiPlan<S::Plan>;

    type Note = Bracket;

    ghost PATHS = { 32 };

    ghost is_plan = { λ semi net pairs plan. S.Scheme.is_plan semi.base net pairs plan.base × AreFixed semi.budget net pairs (S.fixed_routes semi.base plan.base) plan.fixed.routes };

    ghost relates = { λ _ net _ plan demand routes note. IsAdapted net plan.fixed.routes demand routes note };

    const PATHS: u32 = 32;

    fn prepare(
        &self,
        alloc: Global,
        net: &Network,
        pairs: &Pairs,
    ) -> Result<SemiPlan<S::Plan>, SchemeFault> {
        let base = self.base.prepare(alloc, net, pairs)?;
        let fixed = trim(alloc, self.base.fixed(&base), self.budget)?;
        Ok(SemiPlan { base, fixed })
    }

    fn route(
        &self,
        alloc: Global,
        net: &Network,
        plan: &SemiPlan<S::Plan>,
        matrix: &Matrix,
    ) -> Result<(Routing, Bracket), Memory> {
        let routed = route_over(alloc, net, &plan.fixed, matrix)?;
        Ok(routed)
    }
}

impl<S: Oblivious + Drop> Adaptive for Semi<S> {
    ghost use Rattle.std.specs.Prelude.{Some, ◌≤◌};
    ghost use Rattle.std.proofs.Common.{subst};
    ghost use Rattle.std.proofs.Math.Nat.{le_trans};
    ghost use Rattle.std.proofs.lemmas.List.Elements.{All-weaker};
    ghost use Rattle.std.proofs.lemmas.Option.{same_Some};
    ghost use Rattle.semi_oblivious.specs.Semi.{AreAdaptedRates};

    ghost path_set_routes = { λ _ plan. Some plan.fixed.routes };

    ghost adapts = { λ _ net given demand routes low. AreAdaptedRates net given demand routes low };

    fn path_set<'a>(&self, plan: &'a SemiPlan<S::Plan>) -> Option<&'a Routing> {
        Some(&plan.fixed)
    }

    fn adapt_rates(
        &self,
        alloc: Global,
        net: &Network,
        given: &Routing,
        matrix: &Matrix,
    ) -> Result<(Routing, Option<u128>), Memory> {
        let (routing, note) = route_over(alloc, net, given, matrix)?;
        let low = note.low();
        Ok((routing, low))
    }

    ghost path_set_routing = { λ s net pairs plan routes is set. subst (IsRoutingOf net pairs) (same_Some plan.fixed.routes routes set) is.1.routing };

    ghost path_set_few = { λ s net pairs plan routes is set. subst (HasFewPaths 32) (same_Some plan.fixed.routes routes set) (All-weaker (λ r. length r.paths ≤ s.budget) (λ r. length r.paths ≤ 32) (λ r le. le_trans le s.few) plan.fixed.routes is.1.few) };
}
