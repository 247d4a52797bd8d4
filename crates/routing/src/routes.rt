//! Routings, and what they put on the links.
ghost use Rattle.std.specs.Prelude.{◌≡◌, ◌*◌, ◌^◌, ◌<◌, ◌≤◌, All, IfOk, IsTrue, length, slice_index};
ghost use Rattle.te_model.specs.Network.{is_well_formed};
ghost use Rattle.te_model.specs.Path.{weight_on};
ghost use Rattle.te_model.specs.declared.units.TheConstants.{RATIO_UNIT, SHARE_UNIT};
ghost use Rattle.routing.specs.Split.{are_splits, total_weight};
ghost use Rattle.te_model.specs.Division.{quotient_up};

use crate::copy::copy_of;
use crate::loads::{greatest_under, loads_of};
use std::alloc::Global;
use te_model::{
    Items, Matrix, Memory, Network, PairRoutes, PathShare, RATIO_UNIT, SHARE_UNIT, ceil_div,
};

/// The weighted paths of each declared pair, in the order of the pairs.
///
/// The paths of a pair strictly ascend by their lists of links. Their weights are at least 1
/// millionth of the pair's demand, and sum to one million.
#[derive(Drop)]
pub struct Routing {
    pub routes: Items<PairRoutes>,
    ghost splits: { IsTrue (are_splits routes) },
}

/// The weights of those paths that hold the link.
fn weight_on(paths: &[PathShare], link: u32) -> u64
    requires { total_weight paths.now < 2 ^ 64 }
    ensures { result ≡ weight_on paths.now link }
{
    let mut weight = 0;
    for path in paths {
        if path.links.as_slice().contains(&link) {
            weight += path.weight;
        }
    }
    weight
}

/// The load over the capacity, in millionths, rounded up.
pub fn utilisation(load: u128, capacity: u64) -> u128
    requires load { load < 2 ^ 84 }
    requires capacity { 1 ≤ capacity }
    ensures { result ≡ quotient_up (load * RATIO_UNIT) (SHARE_UNIT * capacity) }
{
    let millionths = load * u128::from(RATIO_UNIT);
    let whole = u128::from(SHARE_UNIT) * u128::from(capacity);
    ceil_div(millionths, whole)
}

impl Routing {
    ghost use Rattle.te_model.specs.Path.{share};
    ghost use Rattle.routing.specs.Routes.{AreDemands, AreLoads, load_on};
    ghost use Rattle.routing.specs.Utilisation.{parts};

    /// How many millionths of the demand of the pair go over the link. Takes no memory.
    pub fn share(&self, pair: u32, link: u32) -> u64
        requires { pair < length self.now.routes }
        ensures { result ≡ share self.now.routes pair link }
    {
        weight_on(self.routes.as_slice()[pair as usize].paths.as_slice(), link)
    }

    /// What the demands put on the link, in millionths: the sum over the pairs of the demand times
    /// the share. `matrix` has one demand for each pair. Takes no memory.
    pub fn load(&self, matrix: &Matrix, link: u32) -> u128
        requires pairs { length self.now.routes < 2 ^ 32 }
        requires demands { AreDemands (length self.now.routes) matrix.now.demand }
        ensures load { result ≡ load_on self.now.routes matrix.now.demand link }
        ensures fits { result < 2 ^ 84 }
    {
        let mut load = 0;
        for pair in 0..self.routes.as_slice().len() {
            let demand = matrix.demand.as_slice()[pair];
            load += u128::from(demand) * u128::from(self.share(pair as u32, link));
        }
        load
    }

    /// The greatest utilisation of a link in millionths of its capacity, rounded up, or 0 for a
    /// network without links. `matrix` has one demand for each pair. Takes no memory.
    pub fn parts(&self, net: &Network, matrix: &Matrix) -> u128
        requires network { IsTrue (is_well_formed net.now) }
        requires pairs { length self.now.routes < 2 ^ 32 }
        requires demands { AreDemands (length self.now.routes) matrix.now.demand }
        ensures { result ≡ parts net.now self.now.routes matrix.now.demand }
    {
        let links = net.links.as_slice();
        let mut most = 0;
        for h in 0..links.len() {
            let load = self.load(matrix, h as u32);
            most = most.max(utilisation(load, links[h].capacity));
        }
        most
    }

    /// What the demands put on each link, in millionths: `load` of every link, in one pass over the
    /// paths. `matrix` has one demand for each pair. `Memory` comes where memory is wanting.
    pub fn loads(&self, alloc: Global, net: &Network, matrix: &Matrix) -> Result<Vec<u128>, Memory>
        requires pairs { length self.now.routes < 2 ^ 32 }
        requires demands { AreDemands (length self.now.routes) matrix.now.demand }
        ensures loads { IfOk result (λ loads. AreLoads net.now matrix.now.demand self.now.routes loads.items) }
        ensures fit { IfOk result (λ loads. All (λ x. x < 2 ^ 84) loads.items) }
    {
        loads_of(alloc, net, self.routes.as_slice(), matrix)
    }

    /// The greatest utilisation of a link, which is `parts`, in one pass over the paths. `matrix` has
    /// one demand for each pair. `Memory` comes where memory is wanting.
    pub fn greatest_utilisation(
        &self,
        alloc: Global,
        net: &Network,
        matrix: &Matrix,
    ) -> Result<u128, Memory>
        requires network { IsTrue (is_well_formed net.now) }
        requires pairs { length self.now.routes < 2 ^ 32 }
        requires demands { AreDemands (length self.now.routes) matrix.now.demand }
        ensures { IfOk result (λ most. most ≡ parts net.now self.now.routes matrix.now.demand) }
    {
        let loads = self.loads(alloc, net, matrix)?;
        Ok(greatest_under(net, &loads))
    }

    /// A copy of the routing. `Memory` comes where memory is wanting.
    pub fn copy(&self, alloc: Global) -> Result<Routing, Memory>
        ensures { IfOk result (λ r. r.routes ≡ self.now.routes) }
    {
        let routes = copy_of(alloc, self.routes.as_slice())?;
        Ok(Routing {
            routes: Items::new(routes),
        })
    }
}
