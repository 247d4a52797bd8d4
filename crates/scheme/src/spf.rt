//! The least path by cost carries the whole demand.
ghost use Rattle.std.specs.Prelude.{◌≡◌};
ghost use Rattle.shortest_path.specs.Ways.{AreWays};
ghost use Rattle.scheme.specs.Least.{IsLeastSplit};

use crate::fault::SchemeFault;
use crate::fixed::{PairSplit, fixed_routing};
use crate::traits::{Oblivious, Scheme};
use routing::Routing;
use shortest_path::{Searches, Ways, way_from, ways_to};
use std::alloc::Global;
use te_model::{Items, Matrix, Memory, Network, Pair, Pairs, PathShare, SHARE_UNIT};

/// Shortest path first: the least path by (cost, list of link numbers) carries the whole demand of
/// a pair.
#[derive(Clone, Copy, Debug, PartialEq, Eq)]
pub struct Spf;

/// The routing of `Spf` for a network and its pairs.
#[derive(Drop)]
pub struct SpfPlan {
    pub routing: Routing,
}

impl PairSplit for Spf {
    type Toward = Ways;

    ghost limit = { 1 };

    ghost splits = { λ _. IsLeastSplit };

    ghost is_toward = { λ _ net dst ways. AreWays net ways × (ways.dst ≡ dst) };

    fn toward(
        &self,
        alloc: Global,
        net: &Network,
        searches: &mut Searches,
        dst: u32,
    ) -> Result<Ways, Memory> {
        ways_to(alloc, net, searches, dst)
    }

    fn split(
        &self,
        alloc: Global,
        net: &Network,
        toward: &Ways,
        pair: Pair,
    ) -> Result<Option<Vec<PathShare>>, Memory> {
        match way_from(alloc, net, toward, pair.src)? {
            Some(way) => {
                let whole = vec![in alloc;
                    PathShare {
                        links: Items::new(way),
                        weight: SHARE_UNIT
                    },
                ]?;
                Ok(Some(whole))
            }
            None => Ok(None),
        }
    }
}

impl Scheme for Spf {
    ghost use Rattle.scheme.specs.Fixed.{IsRoutingBy, IsFixedRouting};

    type Plan = SpfPlan;

    type Note = ();

    ghost PATHS = { 1 };

    ghost is_plan = { λ _ net pairs plan. IsRoutingBy IsLeastSplit 1 net pairs plan.routing.routes };

    ghost relates = { λ _ net _ plan _ routes _. IsFixedRouting IsLeastSplit net plan.routing.routes routes };

    const PATHS: u32 = 1;

    fn prepare(&self, alloc: Global, net: &Network, pairs: &Pairs) -> Result<SpfPlan, SchemeFault> {
        let routing = fixed_routing(alloc, self, net, pairs)?;
        Ok(SpfPlan { routing })
    }

    fn route(
        &self,
        alloc: Global,
        _net: &Network,
        plan: &SpfPlan,
        _matrix: &Matrix,
    ) -> Result<(Routing, ()), Memory> {
        let routing = plan.routing.copy(alloc)?;
        Ok((routing, ()))
    }
}

impl Oblivious for Spf {
    ghost use Rattle.std.specs.Prelude.{refl};

    ghost fixed_routes = { λ _ plan. plan.routing.routes };

    fn fixed<'a>(&self, plan: &'a SpfPlan) -> &'a Routing {
        &plan.routing
    }

    ghost fixed_routing = { λ _ net pairs plan is. is.routing };

    ghost fixed_few = { λ _ net pairs plan is. is.few };

    ghost fixed_related = { λ _ net pairs plan demand is has. (tt, record { same = refl; by_rule = is.by_rule }) };

    ghost fixed_only = { λ _ net pairs plan demand routes note is related. related.same };
}
