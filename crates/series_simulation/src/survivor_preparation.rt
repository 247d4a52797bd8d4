//! What a scheme prepares for the network that is left of failed links, and its routing there.
ghost use Rattle.std.specs.Prelude.{◌≡◌, ◌<◌, ◌≤◌, All, AllPairs, IfOk, IsTrue, Some, length};
ghost use Rattle.std.specs.Option.{option_map};
ghost use Rattle.te_model.specs.Network.{is_well_formed, link_count};
ghost use Rattle.te_model.specs.PathRouting.{IsPathRouting};
ghost use Rattle.routing.specs.Routes.{AreDemands, HasFewPaths};
ghost use Rattle.scheme.specs.Reach.{ArePairsOf};
ghost use Rattle.local_recovery.specs.Rates.{pairs_of};
ghost use Rattle.local_recovery.specs.Spread.{IsSublist};
ghost use Rattle.series_simulation.specs.OriginalLinks.{HavePathsBelow, original_routes};
ghost use Rattle.series_simulation.specs.Rows.{AreDemandsIfSome, IsReroutedOn};
ghost use Rattle.series_simulation.specs.SurvivorPreparation.{IsKept, IsPreparedWithout};

use crate::original_links::original_routes;
use crate::preparation::{Preparation, prepare_connected};
use crate::scheme_routing::{SchemeRouting, route_connected};
use failure::{Survivor, surviving};
use scheme::Scheme;
use std::alloc::Global;
use te_model::{Items, Matrix, Memory, Network, Pairs};

/// The network that is left of failed links, and what was prepared for it.
#[derive(Drop)]
pub struct SurvivorPreparation<P> {
    /// For each link of the whole network whether it has failed.
    pub failed: Items<bool>,
    /// The network that is left.
    survivor: Survivor,
    /// What was prepared for it.
    prepared: Preparation<P>,
}

/// Prepares the scheme for the network without its failed links.
///
/// `failed` has one mark for each link. `Memory` comes where memory is wanting.
pub fn prepare_survivor<S: Scheme>(
    alloc: Global,
    scheme: &S,
    net: &Network,
    failed: &[bool],
    pairs: &Pairs,
) -> Result<SurvivorPreparation<S::Plan>, Memory>
    requires network { IsTrue (is_well_formed net.now) }
    requires marks { length failed.now ≡ link_count net.now }
    requires pairs { ArePairsOf net.now pairs.now.list }
    ensures prepared { IfOk result (IsPreparedWithout (S.is_plan scheme.now) net.now failed.now pairs.now.list) }
{
    let survivor = surviving(alloc, net, failed)?;
    let prepared = prepare_connected(alloc, scheme, &survivor.network, pairs)?;
    Ok(SurvivorPreparation {
        failed: Items::new(Vec::from_slice(alloc, failed)?),
        survivor,
        prepared,
    })
}

/// The same routing by the numbers that the links have in the whole network.
fn original_routing(
    alloc: Global,
    origin: &[u32],
    own: &SchemeRouting,
) -> Result<SchemeRouting, Memory>
    requires ascending { AllPairs (λ g h. g < h) origin.now }
    requires links { All (HavePathsBelow (length origin.now)) own.now.routing.routes }
    ensures { IfOk result (λ r. (r.routing.routes ≡ original_routes origin.now own.now.routing.routes)
        × (r.parts ≡ own.now.parts) × (r.low ≡ own.now.low)) }
{
    let routing = original_routes(alloc, origin, &own.routing)?;
    Ok(SchemeRouting {
        routing,
        parts: own.parts,
        low: own.low,
    })
}

/// The scheme's routing on the network that is left, by the numbers of all links.
///
/// `matrix` has one demand for each of `pairs`. `Memory` comes where memory is wanting.
pub fn route_survivor<S: Scheme>(
    alloc: Global,
    scheme: &S,
    net: &Network,
    made: &SurvivorPreparation<S::Plan>,
    pairs: &Pairs,
    predicted: Option<&Matrix>,
    matrix: &Matrix,
) -> Result<SchemeRouting, Memory>
    requires network { IsTrue (is_well_formed net.now) }
    requires pairs { ArePairsOf net.now pairs.now.list }
    requires made { IsKept (S.is_plan scheme.now) net.now pairs.now.list made.now }
    requires predicted { AreDemandsIfSome (length pairs.now.list) (option_map (λ m. m.now.demand) predicted) }
    requires demands { AreDemands (length pairs.now.list) matrix.now.demand }
    ensures rerouted { IfOk result (λ r. IsReroutedOn S.PATHS (S.is_plan scheme.now) (S.relates scheme.now) S.Note.low net.now made.now.failed
        pairs.now.list (option_map (λ m. m.now.demand) predicted.entry) matrix.now.demand r.routing.routes r.parts r.low) }
    ensures routing { IfOk result (λ r. IsPathRouting net.now r.routing.routes) }
    ensures pairs { IfOk result (λ r. IsSublist (pairs_of r.routing.routes) pairs.now.list) }
    ensures few { IfOk result (λ r. HasFewPaths S.PATHS r.routing.routes) }
{
    let survivor = &made.survivor;
    let own = route_connected(
        alloc,
        scheme,
        &survivor.network,
        &made.prepared,
        pairs,
        predicted,
        matrix,
    )?;
    original_routing(alloc, survivor.origin.as_slice(), &own)
}
