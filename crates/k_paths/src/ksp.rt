//! The demand of each pair is split evenly over its first paths.
ghost use Rattle.std.specs.Prelude.{◌≡◌, ◌≤◌};
ghost use Rattle.shortest_path.specs.Ways.{AreWays};
ghost use Rattle.k_paths.specs.Even.{IsEvenSplit};
ghost use Rattle.k_paths.specs.Outgoing.{AreOutgoing};

use crate::least::k_least_along;
use crate::outgoing::{Outgoing, outgoing_links};
use routing::{Routing, even_mix};
use scheme::{Oblivious, PairSplit, Scheme, SchemeFault, fixed_routing};
use shortest_path::{Searches, Ways, ways_to};
use std::alloc::Global;
use te_model::{Matrix, Memory, Network, Pair, Pairs, PathShare};

/// The `k` least paths of each pair by (cost, list of link numbers), with even weights.
///
/// The units that do not divide go to the first paths in this order.
#[derive(Clone, Copy, Debug, PartialEq, Eq)]
pub struct Ksp {
    /// From 1 to 32.
    pub k: u32,
    ghost some: { 1 ≤ k },
    ghost few: { k ≤ 32 },
}

/// The routing of `Ksp` for a network and its pairs.
#[derive(Drop)]
pub struct KspPlan {
    pub routing: Routing,
}

/// The least ways to a node, and the links that leave each node.
#[derive(Drop)]
pub struct KspWays {
    pub ways: Ways,
    pub outgoing: Outgoing,
}

impl PairSplit for Ksp {
    type Toward = KspWays;

    ghost limit = { 32 };

    ghost splits = { λ ksp. IsEvenSplit ksp.k };

    ghost is_toward = { λ _ net dst toward. AreWays net toward.ways × (toward.ways.dst ≡ dst) × AreOutgoing net toward.outgoing };

    fn toward(
        &self,
        alloc: Global,
        net: &Network,
        searches: &mut Searches,
        dst: u32,
    ) -> Result<KspWays, Memory> {
        let ways = ways_to(alloc, net, searches, dst)?;
        let outgoing = outgoing_links(alloc, net)?;
        Ok(KspWays { ways, outgoing })
    }

    fn split(
        &self,
        alloc: Global,
        net: &Network,
        toward: &KspWays,
        pair: Pair,
    ) -> Result<Option<Vec<PathShare>>, Memory> {
        let paths = k_least_along(alloc, net, &toward.ways, &toward.outgoing, pair.src, self.k)?;
        if paths.is_empty() {
            return Ok(None);
        }
        let merged = even_mix(alloc, paths)?;
        Ok(Some(merged))
    }
}

impl Scheme for Ksp {
    ghost use Rattle.scheme.specs.Fixed.{IsRoutingBy, IsFixedRouting};

    type Plan = KspPlan;

    type Note = ();

    ghost PATHS = { 32 };

    ghost is_plan = { λ ksp net pairs plan. IsRoutingBy (IsEvenSplit ksp.k) 32 net pairs plan.routing.routes };

    ghost relates = { λ ksp net _ plan _ routes _. IsFixedRouting (IsEvenSplit ksp.k) net plan.routing.routes routes };

    const PATHS: u32 = 32;

    fn prepare(&self, alloc: Global, net: &Network, pairs: &Pairs) -> Result<KspPlan, SchemeFault> {
        let routing = fixed_routing(alloc, self, net, pairs)?;
        Ok(KspPlan { routing })
    }

    fn route(
        &self,
        alloc: Global,
        _net: &Network,
        plan: &KspPlan,
        _matrix: &Matrix,
    ) -> Result<(Routing, ()), Memory> {
        let routing = plan.routing.copy(alloc)?;
        Ok((routing, ()))
    }
}

impl Oblivious for Ksp {
    ghost use Rattle.std.specs.Prelude.{refl};

    ghost fixed_routes = { λ _ plan. plan.routing.routes };

    fn fixed<'a>(&self, plan: &'a KspPlan) -> &'a Routing {
        &plan.routing
    }

    ghost fixed_routing = { λ _ net pairs plan is. is.routing };

    ghost fixed_few = { λ _ net pairs plan is. is.few };

    ghost fixed_related = { λ _ net pairs plan demand is has. (tt, record { same = refl; by_rule = is.by_rule }) };

    ghost fixed_only = { λ _ net pairs plan demand routes note is related. related.same };
}
