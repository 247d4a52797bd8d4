//! The demand of each pair goes in even parts by way of every node.
ghost use Rattle.std.specs.Prelude.{◌≡◌, IfErr, IfNone, IfOk, IfSome, IsTrue, OnOk};
ghost use Rattle.te_model.specs.declared.limits.TheConstants.{FORMAT_2};
ghost use Rattle.te_model.specs.Network.{is_well_formed, node_count};
ghost use Rattle.shortest_path.specs.Paths.{HasPath};
ghost use Rattle.scheme.specs.Fault.{IsFault};
ghost use Rattle.scheme.specs.Fixed.{IsRoutingBy, IsSplitBy};
ghost use Rattle.scheme.specs.Reach.{AllReached, ArePairsOf, IsPairOf};
ghost use Rattle.valiant_mix.specs.Valiant.{IsValiantSplit};
ghost use Rattle.valiant_mix.specs.Legs.{AreLegsToEach};

use crate::detours::{WalkSpace, detours};
use crate::even::{EvenParts, even_shares};
use crate::legs::{Legs, legs_to_each};
use routing::Routing;
use scheme::{Oblivious, Scheme, SchemeFault};
use std::alloc::Global;
use te_model::{FORMAT_2, Items, Matrix, Memory, Network, Pair, PairRoutes, Pairs, PathShare};

/// The least path by cost to each node and on from there, loops cut, with even weights (Valiant, 1982).
///
/// Source and destination are middle nodes themselves. A node to which or from which no path leads
/// is none. The units that do not divide go to the first middle nodes.
#[derive(Clone, Copy, Debug, PartialEq, Eq)]
pub struct Valiant;

/// The routing of `Valiant` for a network and its pairs.
#[derive(Drop)]
pub struct ValiantPlan {
    pub routing: Routing,
}

/// The weighted paths of the pair, or `None` exactly where no path leads from its source to its
/// destination.
fn split(
    alloc: Global,
    net: &Network,
    legs: &[Legs],
    pair: Pair,
    space: &mut WalkSpace,
    even: &mut EvenParts,
) -> Result<Option<Vec<PathShare>>, Memory>
    requires network { IsTrue (is_well_formed net.now) }
    requires legs { AreLegsToEach net.now (node_count net.now) legs.now }
    requires pair { IsPairOf net.now pair }
    ensures none { IfOk result (λ o. IfNone o (HasPath net.now pair.src pair.dst → ⊥)) }
    ensures some { IfOk result (λ o. IfSome o (λ paths. IsSplitBy IsValiantSplit FORMAT_2.nodes net.now (record { pair = pair; paths = paths.items }))) }
{
    let paths = detours(alloc, net, legs, pair.src, pair.dst, space)?;
    if paths.is_empty() {
        return Ok(None);
    }
    let merged = even_shares(alloc, paths, even)?;
    Ok(Some(merged))
}

/// The routing of the pairs, by the least paths between all nodes.
fn valiant_routing(alloc: Global, net: &Network, pairs: &Pairs) -> Result<Routing, SchemeFault>
    requires network { IsTrue (is_well_formed net.now) }
    requires pairs { ArePairsOf net.now pairs.now.list }
    ensures routing { IfOk result (λ r. IsRoutingBy IsValiantSplit FORMAT_2.nodes net.now pairs.now.list r.routes) }
    ensures reached { OnOk result (AllReached net.now pairs.now.list) }
    ensures fault { IfErr result (IsFault net.now pairs.now.list) }
{
    let list = pairs.list.as_slice();
    let legs = legs_to_each(alloc, net)?;
    let mut space = WalkSpace::new(alloc);
    let mut even = EvenParts::new(alloc);
    let mut routes = Vec::new(alloc);
    for p in 0..list.len() {
        let pair = list[p];
        match split(alloc, net, &legs, pair, &mut space, &mut even)? {
            Some(paths) => {
                let paths = Items::new(paths);
                routes.push(PairRoutes { pair, paths })?;
            }
            None => return Err(SchemeFault::NoPath(p as u32)),
        }
    }
    Ok(Routing {
        routes: Items::new(routes),
    })
}

impl Scheme for Valiant {
    ghost use Rattle.scheme.specs.Fixed.{IsFixedRouting};

    type Plan = ValiantPlan;

    type Note = ();

    ghost PATHS = { FORMAT_2.nodes };

    ghost is_plan = { λ _ net pairs plan. IsRoutingBy IsValiantSplit FORMAT_2.nodes net pairs plan.routing.routes };

    ghost relates = { λ _ net _ plan _ routes _. IsFixedRouting IsValiantSplit net plan.routing.routes routes };

    const PATHS: u32 = FORMAT_2.nodes as u32;

    fn prepare(
        &self,
        alloc: Global,
        net: &Network,
        pairs: &Pairs,
    ) -> Result<ValiantPlan, SchemeFault> {
        let routing = valiant_routing(alloc, net, pairs)?;
        Ok(ValiantPlan { routing })
    }

    fn route(
        &self,
        alloc: Global,
        _net: &Network,
        plan: &ValiantPlan,
        _matrix: &Matrix,
    ) -> Result<(Routing, ()), Memory> {
        let routing = plan.routing.copy(alloc)?;
        Ok((routing, ()))
    }
}

impl Oblivious for Valiant {
    ghost use Rattle.std.specs.Prelude.{refl};

    ghost fixed_routes = { λ _ plan. plan.routing.routes };

    fn fixed<'a>(&self, plan: &'a ValiantPlan) -> &'a Routing {
        &plan.routing
    }

    ghost fixed_routing = { λ _ net pairs plan is. is.routing };

    ghost fixed_few = { λ _ net pairs plan is. is.few };

    ghost fixed_related = { λ _ net pairs plan demand is has. (tt, record { same = refl; by_rule = is.by_rule }) };

    ghost fixed_only = { λ _ net pairs plan demand routes note is related. related.same };
}
