//! The scheme: the demand of each pair goes in even parts over its tree paths.
ghost use Rattle.std.specs.Prelude.{◌≡◌, ◌≤◌};

use crate::round::Round;
use crate::rounds::mix_rounds;
use crate::split::mix_routing;
use routing::Routing;
use scheme::{Oblivious, Scheme, SchemeFault};
use std::alloc::Global;
use te_model::{Items, Matrix, Memory, Network, Pairs};

/// The mix of decomposition trees (Räcke, 2008): each tree is drawn from the words of the seed, and the
/// lengths of each round grow with the loads of the rounds before. A pair's demand goes in even parts
/// over its tree paths; the units that do not divide go to the first rounds.
#[derive(Clone, Copy, Debug, PartialEq, Eq)]
pub struct Racke {
    /// The number of rounds, from 1 to 16.
    pub trees: u32,
    pub seed: u64,
    ghost some: { 1 ≤ trees },
    ghost few: { trees ≤ 16 },
}

/// The rounds of `Racke` for a network, and the routing of its pairs over their trees.
#[derive(Drop)]
pub struct RackePlan {
    pub rounds: Items<Round>,
    pub routing: Routing,
}

impl Scheme for Racke {
    ghost use Rattle.racke_mix.specs.Racke.{IsRackePlan, IsRackeRouting};

    type Plan = RackePlan;

    type Note = ();

    ghost PATHS = { 16 };

    ghost is_plan = { λ racke net pairs plan. IsRackePlan racke.trees racke.seed net pairs plan.rounds plan.routing.routes };

    ghost relates = { λ racke net _ plan _ routes _. IsRackeRouting racke.trees racke.seed net plan.rounds plan.routing.routes routes };

    const PATHS: u32 = 16;

    fn prepare(
        &self,
        alloc: Global,
        net: &Network,
        pairs: &Pairs,
    ) -> Result<RackePlan, SchemeFault> {
        let rounds = mix_rounds(alloc, net, self.trees, self.seed)?;
        let routing = mix_routing(alloc, net, &rounds, pairs)?;
        Ok(RackePlan {
            rounds: Items::new(rounds),
            routing,
        })
    }

    fn route(
        &self,
        alloc: Global,
        _net: &Network,
        plan: &RackePlan,
        _matrix: &Matrix,
    ) -> Result<(Routing, ()), Memory> {
        let routing = plan.routing.copy(alloc)?;
        Ok((routing, ()))
    }
}

impl Oblivious for Racke {
    ghost use Rattle.std.specs.Prelude.{refl};

    ghost fixed_routes = { λ _ plan. plan.routing.routes };

    fn fixed<'a>(&self, plan: &'a RackePlan) -> &'a Routing {
        &plan.routing
    }

    ghost fixed_routing = { λ _ net pairs plan is. is.routing.routing };

    ghost fixed_few = { λ _ net pairs plan is. is.routing.few };

    ghost fixed_related = { λ _ net pairs plan demand is has. (tt, record { mix = is.mix; routing = record { same = refl; by_rule = is.routing.by_rule } }) };

    ghost fixed_only = { λ _ net pairs plan demand routes note is related. related.routing.same };
}
