//! What the pairs put on the links in a round.
ghost use Rattle.std.specs.Prelude.{◌≡◌, ◌<◌, ◌^◌, All, IfOk, IsTrue, length, map, slice_index};
ghost use Rattle.te_model.specs.Network.{link_count};
ghost use Rattle.te_model.specs.Path.{is_distinct};
ghost use Rattle.routing.specs.Routes.{AreDemands};
ghost use Rattle.multiplicative_lengths.specs.Loads.{loads_of};

use multiplicative_lengths::add_along;
use std::alloc::Global;
use te_model::{Matrix, Memory, Network, Path};

/// The load of each link: the sum of the demands of the pairs whose path holds it.
///
/// `paths` and `matrix` have a path and a demand for each pair. `Memory` comes where memory is wanting.
pub fn loads_of(
    alloc: Global,
    net: &Network,
    matrix: &Matrix,
    paths: &[Path],
) -> Result<Vec<u64>, Memory>
    requires few { length paths.now < 2 ^ 32 }
    requires demands { AreDemands (length paths.now) matrix.now.demand }
    requires links { All (λ p. All (λ h. h < link_count net.now) p.links) paths.now }
    requires distinct { All (λ p. IsTrue (is_distinct p.links)) paths.now }
    ensures { IfOk result (λ l. l.items ≡ loads_of net.now (slice_index matrix.now.demand) (map (λ p. p.links) paths.now)) }
{
    let demands = matrix.demand.as_slice();
    let mut loads = vec![in alloc; 0; net.links.as_slice().len()]?;
    for p in 0..paths.len() {
        add_along(&mut loads, paths[p].links.as_slice(), demands[p]);
    }
    Ok(loads)
}
