//! The demand of each pair follows the equal split of its flow.
ghost use Rattle.std.specs.Prelude.{◌≡◌};
ghost use Rattle.te_model.specs.declared.limits.TheConstants.{FORMAT_2};
ghost use Rattle.ecmp_split.specs.Hops.{AreNextHops};
ghost use Rattle.ecmp_split.specs.Rule.{IsMultipathSplit};

use crate::hops::{NextHops, next_hops};
use crate::splitting::split_by;
use routing::{Routing, decompose};
use scheme::{Oblivious, PairSplit, Scheme, SchemeFault, fixed_routing};
use shortest_path::Searches;
use std::alloc::Global;
use te_model::{FORMAT_2, Matrix, Memory, Network, Pair, Pairs, PathShare};

/// Equal-cost multipath: the paths of a pair are those of its equal split, taken apart.
#[derive(Clone, Copy, Debug, PartialEq, Eq)]
pub struct Ecmp;

/// The routing of `Ecmp` for a network and its pairs.
#[derive(Drop)]
pub struct EcmpPlan {
    pub routing: Routing,
}

impl PairSplit for Ecmp {
    type Toward = NextHops;

    ghost limit = { FORMAT_2.links };

    ghost splits = { λ _. IsMultipathSplit };

    ghost is_toward = { λ _. AreNextHops };

    fn toward(
        &self,
        alloc: Global,
        net: &Network,
        searches: &mut Searches,
        dst: u32,
    ) -> Result<NextHops, Memory> {
        next_hops(alloc, net, searches, dst)
    }

    fn split(
        &self,
        alloc: Global,
        net: &Network,
        toward: &NextHops,
        pair: Pair,
    ) -> Result<Option<Vec<PathShare>>, Memory> {
        match split_by(alloc, net, toward, pair)? {
            Some(flow) => {
                let paths = decompose(alloc, net, pair, &flow)?;
                Ok(Some(paths))
            }
            None => Ok(None),
        }
    }
}

impl Scheme for Ecmp {
    ghost use Rattle.scheme.specs.Fixed.{IsRoutingBy, IsFixedRouting};

    type Plan = EcmpPlan;

    type Note = ();

    ghost PATHS = { FORMAT_2.links };

    ghost is_plan = { λ _ net pairs plan. IsRoutingBy IsMultipathSplit FORMAT_2.links net pairs plan.routing.routes };

    ghost relates = { λ _ net _ plan _ routes _. IsFixedRouting IsMultipathSplit net plan.routing.routes routes };

    const PATHS: u32 = FORMAT_2.links as u32;

    fn prepare(
        &self,
        alloc: Global,
        net: &Network,
        pairs: &Pairs,
    ) -> Result<EcmpPlan, SchemeFault> {
        let routing = fixed_routing(alloc, self, net, pairs)?;
        Ok(EcmpPlan { routing })
    }

    fn route(
        &self,
        alloc: Global,
        _net: &Network,
        plan: &EcmpPlan,
        _matrix: &Matrix,
    ) -> Result<(Routing, ()), Memory> {
        let routing = plan.routing.copy(alloc)?;
        Ok((routing, ()))
    }
}

impl Oblivious for Ecmp {
    ghost use Rattle.std.specs.Prelude.{refl};

    ghost fixed_routes = { λ _ plan. plan.routing.routes };

    fn fixed<'a>(&self, plan: &'a EcmpPlan) -> &'a Routing {
        &plan.routing
    }

    ghost fixed_routing = { λ _ net pairs plan is. is.routing };

    ghost fixed_few = { λ _ net pairs plan is. is.few };

    ghost fixed_related = { λ _ net pairs plan demand is has. (tt, record { same = refl; by_rule = is.by_rule }) };

    ghost fixed_only = { λ _ net pairs plan demand routes note is related. related.same };
}
