//! The trait of schemes that choose rates anew where some of their paths are gone.
ghost use Rattle.std.specs.Prelude.{◌≡◌, ◌^◌, ◌<◌, Option, Some, ℕ, List, IfOk, IsTrue, length, option_map};
ghost use Rattle.te_model.specs.declared.network.Network.{Network};
ghost use Rattle.te_model.specs.declared.route.Pair.{Pair};
ghost use Rattle.te_model.specs.declared.route.PairRoutes.{PairRoutes};
ghost use Rattle.te_model.specs.Network.{is_well_formed};
ghost use Rattle.routing.specs.Routes.{AreDemands, HasFewPaths, IsRoutingOf};
ghost use Rattle.scheme.specs.Adaptive.{AreGivenRates, KeepsTo};

use crate::traits::{Oblivious, Scheme};
use routing::Routing;
use std::alloc::Global;
use te_model::{Matrix, Memory, Network};

/// A scheme that says over which paths its rates may be chosen anew: those that its plans keep for all matrices, and that are left.
pub trait Adaptive: Scheme {
    /// The routes over the set of paths that a plan keeps for all matrices, if the scheme chooses rates over any part of them.
    ghost path_set_routes: { Self → Self.Plan → Option (List PairRoutes) };

    /// The scheme's own relation between routes over given paths, the demands, a routing over these paths, and the lower bound of every
    /// routing's utilisation over these paths, if it has one.
    ghost adapts: { Self → Network → List PairRoutes → List ℕ → List PairRoutes → Option ℕ → Type 0 };

    /// The routing over the set of paths of a plan, if the scheme chooses rates over any part of them. Takes no memory.
    fn path_set<'a>(&self, plan: &'a Self::Plan) -> Option<&'a Routing>
        ensures { option_map (λ r. r.now.routes) result ≡ path_set_routes self.now plan.now };

    /// The routing of a matrix over the given paths, and the lower bound of every routing's utilisation over these paths in millionths, if
    /// the scheme has one.
    ///
    /// `given` is a routing of some pairs over paths of the network, with at most `PATHS` for each, and `matrix` has one demand for each
    /// of these pairs. `Memory` comes where memory is wanting.
    fn adapt_rates(
        &self,
        alloc: Global,
        net: &Network,
        given: &Routing,
        matrix: &Matrix,
    ) -> Result<(Routing, Option<u128>), Memory>
        requires network { IsTrue (is_well_formed net.now) }
        requires given { (pairs : List Pair) × IsRoutingOf net.now pairs given.now.routes }
        requires few { HasFewPaths Self.PATHS given.now.routes }
        requires pairs { length given.now.routes < 2 ^ 32 }
        requires demands { AreDemands (length given.now.routes) matrix.now.demand }
        ensures routing { (pairs : List Pair) → IsRoutingOf net.now pairs given.now.routes → IfOk result (λ r. IsRoutingOf net.now pairs r.0.routes) }
        ensures few { IfOk result (λ r. HasFewPaths Self.PATHS r.0.routes) }
        ensures keeps { IfOk result (λ r. KeepsTo given.now.routes r.0.routes) }
        ensures adapted { IfOk result (λ r. adapts self.now net.now given.now.routes matrix.now.demand r.0.routes r.1) };

    /// It is a routing of the plan's network and pairs.
    ghost path_set_routing: { (s : Self) → (net : Network) → (pairs : List Pair) → (plan : Self.Plan) → (routes : List PairRoutes) → Self.is_plan s net pairs plan → path_set_routes s plan ≡ Some routes → IsRoutingOf net pairs routes };

    /// No pair has more paths than the scheme's limit.
    ghost path_set_few: { (s : Self) → (net : Network) → (pairs : List Pair) → (plan : Self.Plan) → (routes : List PairRoutes) → Self.is_plan s net pairs plan → path_set_routes s plan ≡ Some routes → HasFewPaths Self.PATHS routes };
}

/// The given routing, of which no bound is stated: what a scheme has that chooses no rates anew. `Memory` comes where memory is wanting.
pub fn given_rates(alloc: Global, given: &Routing) -> Result<(Routing, Option<u128>), Memory>
    ensures { IfOk result (λ r. AreGivenRates given.now.routes r.0.routes r.1) }
{
    let routing = given.copy(alloc)?;
    Ok((routing, None))
}

/// A scheme with one routing for all matrices chooses no rates anew.
impl<S: Oblivious> Adaptive for S {
    ghost use Rattle.std.specs.Prelude.{None};
    ghost use Rattle.std.proofs.lemmas.Option.{none-some};

    ghost path_set_routes = { λ _ _. None };

    ghost adapts = { λ _ _ given _ routes low. AreGivenRates given routes low };

    fn path_set<'a>(&self, _plan: &'a S::Plan) -> Option<&'a Routing> {
        None
    }

    fn adapt_rates(
        &self,
        alloc: Global,
        _net: &Network,
        given: &Routing,
        _matrix: &Matrix,
    ) -> Result<(Routing, Option<u128>), Memory> {
        let (routing, low) = given_rates(alloc, given)?;
        Ok((routing, low))
    }

    ghost path_set_routing = { λ s net pairs plan routes is set. absurd (none-some routes set) };

    ghost path_set_few = { λ s net pairs plan routes is set. absurd (none-some routes set) };
}
