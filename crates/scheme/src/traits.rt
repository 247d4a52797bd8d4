//! The traits of routing schemes, with their laws.
ghost use Rattle.std.specs.Prelude.{◌≡◌, ◌^◌, ◌<◌, ◌≤◌, ℕ, List, IfOk, IfErr, OnOk, IsTrue, length};
ghost use Rattle.te_model.specs.declared.network.Network.{Network};
ghost use Rattle.te_model.specs.declared.route.Pair.{Pair};
ghost use Rattle.te_model.specs.declared.route.PairRoutes.{PairRoutes};
ghost use Rattle.te_model.specs.Network.{is_well_formed};
ghost use Rattle.routing.specs.Routes.{AreDemands, HasFewPaths, IsRoutingOf};
ghost use Rattle.scheme.specs.Fault.{IsFault};
ghost use Rattle.scheme.specs.Reach.{AllReached, ArePairsOf};

use crate::fault::SchemeFault;
use crate::low::LowNote;
use routing::Routing;
use std::alloc::Global;
use te_model::{Matrix, Memory, Network, Pairs};

/// A scheme that plans once for a network and its declared pairs, and then routes matrices.
pub trait Scheme {
    /// What is prepared for a network and its pairs.
    type Plan: Drop;

    /// What is noted of a matrix.
    type Note: LowNote + Drop;

    /// The greatest number of paths of a pair.
    ghost PATHS: { ℕ };

    /// The plan is of the network and the pairs.
    ghost is_plan: { Self → Network → List Pair → Self.Plan → Type 0 };

    /// The scheme's own relation between a plan, the demands, a routing and a note.
    ghost relates: { Self → Network → List Pair → Self.Plan → List ℕ → List PairRoutes → Self.Note → Type 0 };

    /// The greatest number of paths of a pair.
    const PATHS: u32;

    /// A plan for the network and the pairs, which are of two different nodes each.
    ///
    /// `NoPath` names the first pair without a path, exactly where there is one, and `Memory` comes
    /// where memory is wanting.
    fn prepare(
        &self,
        alloc: Global,
        net: &Network,
        pairs: &Pairs,
    ) -> Result<Self::Plan, SchemeFault>
        requires network { IsTrue (is_well_formed net.now) }
        requires pairs { ArePairsOf net.now pairs.now.list }
        ensures plan { IfOk result (λ p. is_plan self.now net.now pairs.now.list p) }
        ensures reached { OnOk result (AllReached net.now pairs.now.list) }
        ensures fault { IfErr result (IsFault net.now pairs.now.list) };

    /// The routing of a matrix by a plan of the network, and a note on it. `matrix` has one demand
    /// for each pair of the plan.
    fn route(
        &self,
        alloc: Global,
        net: &Network,
        plan: &Self::Plan,
        matrix: &Matrix,
    ) -> Result<(Routing, Self::Note), Memory>
        requires network { IsTrue (is_well_formed net.now) }
        requires plan { (pairs : List Pair) × is_plan self.now net.now pairs plan.now × AreDemands (length pairs) matrix.now.demand }
        ensures routing { (pairs : List Pair) → is_plan self.now net.now pairs plan.now → IfOk result (λ r. IsRoutingOf net.now pairs r.0.routes) }
        ensures few { IfOk result (λ r. HasFewPaths PATHS r.0.routes) }
        ensures related { (pairs : List Pair) → is_plan self.now net.now pairs plan.now → IfOk result (λ r. relates self.now net.now pairs plan.now matrix.now.demand r.0.routes r.1) }
        ensures note { IfOk result (λ r. Self.Note.has_low r.1) };
}

/// A scheme whose routing is the same for every matrix.
pub trait Oblivious: Scheme {
    /// The routes of a plan.
    ghost fixed_routes: { Self → Self.Plan → List PairRoutes };

    /// The routing of a plan, whatever the matrix is. Takes no memory.
    fn fixed<'a>(&self, plan: &'a Self::Plan) -> &'a Routing
        ensures { result.now.routes ≡ fixed_routes self.now plan.now };

    /// It is a routing of the plan's network and pairs.
    ghost fixed_routing: { (s : Self) → (net : Network) → (pairs : List Pair) → (plan : Self.Plan) → Self.is_plan s net pairs plan → IsRoutingOf net pairs (fixed_routes s plan) };

    /// No pair has more paths than the scheme's limit.
    ghost fixed_few: { (s : Self) → (net : Network) → (pairs : List Pair) → (plan : Self.Plan) → Self.is_plan s net pairs plan → HasFewPaths Self.PATHS (fixed_routes s plan) };

    /// It stands in the scheme's relation with every matrix and some note.
    ghost fixed_related: { (s : Self) → (net : Network) → (pairs : List Pair) → (plan : Self.Plan) → (demand : List ℕ) → Self.is_plan s net pairs plan → AreDemands (length pairs) demand → (note : Self.Note) × Self.relates s net pairs plan demand (fixed_routes s plan) note };

    /// No other routing stands in the scheme's relation with the plan.
    ghost fixed_only: { (s : Self) → (net : Network) → (pairs : List Pair) → (plan : Self.Plan) → (demand : List ℕ) → (routes : List PairRoutes) → (note : Self.Note) → Self.is_plan s net pairs plan → Self.relates s net pairs plan demand routes note → routes ≡ fixed_routes s plan };
}
