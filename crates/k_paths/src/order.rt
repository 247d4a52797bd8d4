//! The order of lists of links.
ghost use Rattle.std.specs.Prelude.{◌<◌, ◌≤◌, ◌^◌, All, length, MatchBool};
ghost use Rattle.shortest_path.specs.Paths.{IsBelow};

use routing::is_list_below;
use shortest_path::length_along;

/// Whether the first list comes first by its sum of costs, or with equal sums by its links.
pub fn is_before(costs: &[u64], a: &[u32], b: &[u32]) -> bool
    requires first { All (λ h. h < length costs.now) a.now }
    requires second { All (λ h. h < length costs.now) b.now }
    requires costs { All (λ c. c ≤ 2 ^ 28) costs.now }
    ensures { MatchBool result (IsBelow costs.now a.now b.now) (IsBelow costs.now a.now b.now → ⊥) }
{
    let x = length_along(costs, a);
    let y = length_along(costs, b);
    if x == y { is_list_below(a, b) } else { x < y }
}
