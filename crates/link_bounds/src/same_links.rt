//! Networks of the same links.
ghost use Rattle.std.specs.Prelude.{◌≡◌, ◌&&◌, ◌==◌};
ghost use Rattle.te_model.specs.Counting.{all_below};
ghost use Rattle.te_model.specs.Network.{link_count};
ghost use Rattle.link_bounds.specs.SameLinks.{has_same_ends, has_same_links};

use te_model::{Link, Network};

// Whether the two links lead from and to the same nodes.
fn has_same_ends(a: Link, b: Link) -> bool
    ensures { result ≡ (a.tail == b.tail && a.head == b.head) }
{
    a.tail == b.tail && a.head == b.head
}

// Whether the links of the two lead from and to the same nodes, in order.
fn have_same_ends(a: &Network, b: &Network) -> bool
    requires { link_count a.now ≡ link_count b.now }
    ensures { result ≡ all_below (link_count a.now) (has_same_ends a.now b.now) }
{
    let links = a.links.as_slice();
    let others = b.links.as_slice();
    for h in 0..links.len() {
        if !has_same_ends(links[h], others[h]) {
            return false;
        }
    }
    true
}

/// Whether the two networks have the same nodes by name and the same links by their ends, in order. Their capacities and
/// costs may differ.
pub fn have_same_links(a: &Network, b: &Network) -> bool
    ensures { result ≡ has_same_links a.now b.now }
{
    a.names == b.names
        && a.links.as_slice().len() == b.links.as_slice().len()
        && have_same_ends(a, b)
}
