//! Whether routes are of given pairs.
ghost use Rattle.std.specs.Prelude.{◌≡◌, ◌↔◌, IsTrue, map};

use te_model::{Pair, PairRoutes};

/// Whether the routes are of these pairs, in order.
pub fn have_pairs(routes: &[PairRoutes], pairs: &[Pair]) -> bool
    ensures { IsTrue result ↔ (map (λ r. r.pair) routes.now ≡ pairs.now) }
{
    if routes.len() != pairs.len() {
        return false;
    }
    for p in 0..pairs.len() {
        if routes[p].pair != pairs[p] {
            return false;
        }
    }
    true
}
