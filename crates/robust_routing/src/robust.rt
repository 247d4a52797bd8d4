//! The scheme of one routing for all matrices, found by sweeps.
ghost use Rattle.std.specs.Prelude.{◌≡◌, ◌≤◌, IfErr, IfOk, IsTrue, OnOk};
ghost use Rattle.te_model.specs.Network.{is_well_formed};
ghost use Rattle.scheme.specs.Fault.{IsFault};
ghost use Rattle.scheme.specs.Reach.{AllReached, ArePairsOf};
ghost use Rattle.robust_routing.specs.Robust.{IsRobustPlan, most_ways, ways_of};

use crate::joint::best_sweep;
use routing::Routing;
use scheme::{Oblivious, Scheme, SchemeFault, Spf, fixed_routing};
use std::alloc::Global;
use te_model::{Items, Matrix, Memory, Network, Pairs};

/// The most paths of a pair that the scheme gives.
const MOST_WAYS: u32 = 32;

/// A routing whose oblivious ratio is small, over at most so many paths a pair.
///
/// It is the same in each run. How small its ratio is, its certificate says.
#[derive(Clone, Copy, Debug, PartialEq, Eq)]
pub struct Robust {
    /// How many paths a pair has at most, from 1 to 32. A number outside of these limits counts as the nearest one inside.
    pub ways: u32,
}

/// The routing of `Robust` for a network and its pairs, and the weights by which the sweeps prove its ratio.
#[derive(Drop)]
pub struct RobustPlan {
    pub routing: Routing,
    /// For each link one weight of each link: a certificate of the routing may begin with them.
    pub weights: Items<Items<u64>>,
}

/// How many paths a pair has at most.
fn limit_of(robust: Robust) -> usize
    ensures limit { result ≡ ways_of robust.ways }
{
    robust.ways.max(1).min(MOST_WAYS) as usize
}

/// The plan that sweeps find from the least paths by cost on.
fn robust_plan(
    alloc: Global,
    net: &Network,
    pairs: &Pairs,
    limit: usize,
) -> Result<RobustPlan, SchemeFault>
    requires network { IsTrue (is_well_formed net.now) }
    requires pairs { ArePairsOf net.now pairs.now.list }
    requires limit { (1 ≤ limit) × (limit ≤ 32) }
    ensures plan { IfOk result (IsRobustPlan limit net.now pairs.now.list) }
    ensures reached { OnOk result (AllReached net.now pairs.now.list) }
    ensures fault { IfErr result (IsFault net.now pairs.now.list) }
{
    let start = fixed_routing(alloc, &Spf, net, pairs)?;
    let (routing, weights) = best_sweep(alloc, net, pairs.list.as_slice(), limit, start)?;
    Ok(RobustPlan { routing, weights })
}

impl Scheme for Robust {
    type Plan = RobustPlan;

    type Note = ();

    ghost PATHS = { most_ways };

    ghost is_plan = { λ s net pairs plan. IsRobustPlan (ways_of s.ways) net pairs plan };

    ghost relates = { λ _ _ _ plan _ routes _. routes ≡ plan.routing.routes };

    const PATHS: u32 = MOST_WAYS;

    fn prepare(
        &self,
        alloc: Global,
        net: &Network,
        pairs: &Pairs,
    ) -> Result<RobustPlan, SchemeFault> {
        robust_plan(alloc, net, pairs, limit_of(*self))
    }

    fn route(
        &self,
        alloc: Global,
        _net: &Network,
        plan: &RobustPlan,
        _matrix: &Matrix,
    ) -> Result<(Routing, ()), Memory> {
        let routing = plan.routing.copy(alloc)?;
        Ok((routing, ()))
    }
}

impl Oblivious for Robust {
    ghost use Rattle.std.specs.Prelude.{◌≤◌, length, max, refl};
    ghost use Rattle.std.proofs.Math.Nat.{le_trans, min-le_right};
    ghost use Rattle.std.proofs.lemmas.List.Elements.{All-weaker};

    ghost fixed_routes = { λ _ plan. plan.routing.routes };

    fn fixed<'a>(&self, plan: &'a RobustPlan) -> &'a Routing {
        &plan.routing
    }

    ghost fixed_routing = { λ _ net pairs plan is. is.routing };

    ghost fixed_few = { λ s net pairs plan is. All-weaker (λ r. length r.paths ≤ ways_of s.ways) (λ r. length r.paths ≤ most_ways) (λ r le. le_trans le (min-le_right (max s.ways 1) most_ways)) plan.routing.routes is.few };

    ghost fixed_related = { λ _ net pairs plan demand is has. (tt, refl) };

    ghost fixed_only = { λ _ net pairs plan demand routes note is related. related };
}
