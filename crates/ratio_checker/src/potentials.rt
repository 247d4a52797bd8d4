//! I1: the potentials of each source start at zero and rise along a link by its weight at most.
ghost use Rattle.std.specs.Prelude.{◌≡◌, ℕ, ◌+◌, ◌<◌, ◌≤◌, slice_index, nat_le, All};
ghost use Rattle.te_model.specs.declared.limits.TheConstants.{FORMAT_2};
ghost use Rattle.te_model.specs.Network.{node_count, link_count, tail_of, head_of};
ghost use Rattle.te_model.specs.Certificate.{row_of};
ghost use Rattle.te_model.specs.Inequalities.{row_failure, potentials_failure};
ghost use Rattle.ratio_checker.specs.Ascending.{AscendsFrom};

use te_model::{Block, InequalityFault, Network, Row, number_at};

// Along the link, the potential rises by the link's weight at most.
fn rises_within(network: &Network, weights: &[u64], row: &[u64], h: usize) -> bool
    requires { h < link_count network.now }
    ensures { result ≡ nat_le (slice_index row.now (head_of network.now h))
        (slice_index row.now (tail_of network.now h) + slice_index weights.now h) }
{
    let link = network.links.as_slice()[h];
    let before = number_at(row, link.tail as usize);
    let weight = number_at(weights, h);
    number_at(row, link.head as usize) as u128 <= before as u128 + weight as u128
}

// Where the row fails first.
#[tactic(auto, using(crate::proofs::RowFailures::row_failure_found))]
fn row_failure(network: &Network, block: &Block, row: &Row) -> Option<InequalityFault>
    requires links { link_count network.now ≤ FORMAT_2.links }
    requires row { row_of block.now.rows row.now.source ≡ row.now }
    ensures { result ≡ row_failure network.now block.now row.now.source }
{
    let weights = block.weights.as_slice();
    let potential = row.potential.as_slice();
    let links = network.links.as_slice().len();
    let start = row.source as u64 * (links as u64 + 1);
    if number_at(potential, row.source as usize) != 0 {
        return Some(InequalityFault {
            number: 1,
            place: start,
        });
    }
    for h in 0..links {
        if !rises_within(network, weights, potential, h) {
            return Some(InequalityFault {
                number: 1,
                place: start + 1 + h as u64,
            });
        }
    }
    None
}

// Where the potentials fail first: a source without a row has zeros, which never fail.
pub fn potentials_failure(network: &Network, block: &Block) -> Option<InequalityFault>
    requires links { link_count network.now ≤ FORMAT_2.links }
    requires ascend { AscendsFrom (λ r. r.source) 0 block.now.rows }
    requires sources { All (λ r. r.source < node_count network.now) block.now.rows }
    ensures { result ≡ potentials_failure network.now block.now }
{
    for row in block.rows.as_slice() {
        if let Some(failure) = row_failure(network, block, row) {
            return Some(failure);
        }
    }
    None
}
