//! What a step asks of each link.
ghost use Rattle.std.specs.Prelude.{◌≡◌, ℕ, ◌+◌, ◌^◌, ◌<◌, ◌≤◌, All, EachIndex, IfOk, IsTrue, length, slice_index};
ghost use Rattle.te_model.specs.Counting.{sum_below};
ghost use Rattle.te_model.specs.Network.{is_well_formed, link_count};
ghost use Rattle.te_model.specs.Path.{is_distinct};
ghost use Rattle.local_recovery.specs.Rates.{IsRates};
ghost use Rattle.flow_sim.specs.Asked.{all_asked_units, asked_from};

use crate::tables::{starts, zeros};
use local_recovery::Recovered;
use multiplicative_lengths::add_along;
use std::alloc::Global;
use te_model::{Items, Matrix, Memory, Network, PathShare};

// Adds the units of the flows of a pair, which begin at `first`, to the links of their paths.
fn add_flows(asked: &mut [u64], paths: &[PathShare], units: &[u64], first: usize)
    requires flows { first + length paths.now ≤ length units.now }
    requires links { All (λ s. All (λ e. e < length asked.old) s.links) paths.now }
    requires distinct { All (λ s. IsTrue (is_distinct s.links)) paths.now }
    requires room { (e : ℕ) → slice_index asked.old e + sum_below (length paths.now) (λ i. slice_index units.now (first + i)) < 2 ^ 64 }
    ensures { (e : ℕ) → slice_index asked.new e ≡ slice_index asked.old e + asked_from paths.now units.now first (length paths.now) e }
{
    for place in 0..paths.len() {
        add_along(asked, paths[place].links.as_slice(), units[first + place]);
    }
}

/// What each link is asked to carry in a step: the units of the flows whose paths hold it, which are the demands split over their pairs'
/// paths by their weights (largest remainders), one number for each link. Which links have failed, or are full, changes nothing.
///
/// `rates` has the paths of each pair, and `matrix` one demand for each pair of the rates. `Memory` comes where memory is wanting.
pub fn asked_units(
    alloc: Global,
    net: &Network,
    rates: &Recovered,
    matrix: &Matrix,
) -> Result<Items<u64>, Memory>
    requires network { IsTrue (is_well_formed net.now) }
    requires rates { IsRates net.now rates.now.routes }
    requires demands { length matrix.now.demand ≡ length rates.now.routes }
    requires small { EachIndex matrix.now.demand (λ p. slice_index matrix.now.demand p ≤ 2 ^ 32) }
    ensures { IfOk result (λ asked. asked ≡ all_asked_units net.now rates.now.routes matrix.now.demand) }
{
    let count = net.links.as_slice().len();
    let units = starts(alloc, &rates.routes, matrix)?;
    let mut asked = zeros(alloc, count)?;
    let routes = rates.routes.as_slice();
    let mut first = 0;
    for p in 0..routes.len() {
        let paths = routes[p].paths.as_slice();
        add_flows(&mut asked, paths, units.as_slice(), first);
        first += paths.len();
    }
    Ok(Items::new(asked))
}
