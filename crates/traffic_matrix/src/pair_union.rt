//! The pairs that stand in either of two lists.
ghost use Rattle.std.specs.Prelude.{◌≡◌, ◌*◌, ◌<◌, ◌≤◌, ◌||◌, All, IfOk, false, filter, length, slice_index_or, vec_len};
ghost use Rattle.te_model.specs.declared.limits.TheConstants.{FORMAT_2};
ghost use Rattle.te_model.specs.declared.route.Pair.{Pair};
ghost use Rattle.te_model.specs.Pairs.{IsNodePair};
ghost use Rattle.traffic_matrix.specs.Pairs.{all_pairs, place_of_pair};
ghost use Rattle.traffic_matrix.specs.Traffic.{has_pair, pairs_of_either};

use std::alloc::Global;
use te_model::{Memory, Pair};

/// The place of a pair among all pairs of the nodes.
pub fn place_of(nodes: usize, pair: Pair) -> usize
    requires nodes { nodes ≤ FORMAT_2.nodes }
    requires pair { IsNodePair nodes pair }
    ensures value { result ≡ place_of_pair nodes pair }
    ensures within { result < nodes * nodes }
{
    pair.src as usize * nodes + pair.dst as usize
}

/// The marks with those of the places of these pairs.
pub fn with_marks(mut marks: Vec<bool>, nodes: usize, pairs: &[Pair]) -> Vec<bool>
    requires nodes { nodes ≤ FORMAT_2.nodes }
    requires count { vec_len marks ≡ nodes * nodes }
    requires pairs { All (IsNodePair nodes) pairs.now }
    ensures count { vec_len result ≡ nodes * nodes }
    ensures marks { (pair : Pair) → IsNodePair nodes pair → slice_index_or result.items (place_of_pair nodes pair) false
        ≡ (has_pair pairs.now pair || slice_index_or marks.items (place_of_pair nodes pair) false) }
{
    for pair in pairs {
        let place = place_of(nodes, *pair);
        marks[place] = true;
    }
    marks
}

// The pairs at the marked places, ascending.
fn marked_pairs(alloc: Global, nodes: usize, marks: &[bool]) -> Result<Vec<Pair>, Memory>
    requires nodes { nodes ≤ FORMAT_2.nodes }
    requires count { length marks.now ≡ nodes * nodes }
    ensures { IfOk result (λ v. v.items ≡ filter (λ pair. slice_index_or marks.now (place_of_pair nodes pair) false) (all_pairs nodes)) }
{
    let mut pairs = Vec::new(alloc);
    for place in 0..nodes * nodes {
        if marks[place] {
            pairs.push(Pair {
                src: (place / nodes) as u32,
                dst: (place % nodes) as u32,
            })?;
        }
    }
    Ok(pairs)
}

/// The pairs of the nodes that stand in either list, ascending. `Memory` comes where memory is wanting.
pub fn pairs_of_either(
    alloc: Global,
    nodes: usize,
    one: &[Pair],
    other: &[Pair],
) -> Result<Vec<Pair>, Memory>
    requires nodes { nodes ≤ FORMAT_2.nodes }
    requires one { All (IsNodePair nodes) one.now }
    requires other { All (IsNodePair nodes) other.now }
    ensures { IfOk result (λ v. v.items ≡ pairs_of_either nodes one.now other.now) }
{
    let none = vec![in alloc; false; nodes * nodes]?;
    let marks = with_marks(with_marks(none, nodes, other), nodes, one);
    marked_pairs(alloc, nodes, marks.as_slice())
}
