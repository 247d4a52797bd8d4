//! The longest of the ways of a pair.
ghost use Rattle.std.specs.Prelude.{◌≡◌, ◌^◌, ◌+◌, ◌-◌, ◌<◌, ◌≤◌, IfNone, IfSome, length};
ghost use Rattle.kept_ways.specs.declared.longest.TheConstants.{MOST_WAYS};
ghost use Rattle.kept_ways.specs.KeptWays.{ways_of, IsLongest};

use crate::ways::KeptWay;

/// The most ways that a pair keeps.
pub const MOST_WAYS: usize = 16;

/// How many ways of a pair there are, and where the last one of the longest of them stands: 0 where there is none.
#[derive(Clone, Copy)]
pub struct PairWays {
    pub count: usize,
    pub longest: usize,
    /// The length of the longest.
    pub length: u64,
}

/// The ways of the pair at the place with this way, which stands behind them and is so long, if it is one of the pair.
fn with_way(found: PairWays, way: &KeptWay, place: usize, at: usize, length: u64) -> PairWays
    requires count { found.count < 2 ^ 64 - 1 }
    ensures other { (way.now.place ≡ place → ⊥) → result ≡ found }
    ensures count { way.now.place ≡ place → result.count ≡ found.count + 1 }
    ensures taken { way.now.place ≡ place → found.length ≤ length → (result.longest ≡ at) × (result.length ≡ length) }
    ensures kept { way.now.place ≡ place → length < found.length → (result.longest ≡ found.longest) × (result.length ≡ found.length) }
{
    if way.place != place {
        found
    } else if length < found.length {
        PairWays {
            count: found.count + 1,
            longest: found.longest,
            length: found.length,
        }
    } else {
        PairWays {
            count: found.count + 1,
            longest: at,
            length,
        }
    }
}

/// Where a longest way of the pair at the place stands, if the pair has as many as it keeps.
pub fn longest_of_many(ways: &[KeptWay], lengths: &[u64], place: usize) -> Option<usize>
    requires count { length lengths.now ≡ length ways.now }
    ensures few { IfNone result (ways_of place ways.now < MOST_WAYS) }
    ensures many { IfSome result (λ i. MOST_WAYS ≤ ways_of place ways.now) }
    ensures longest { IfSome result (IsLongest ways.now lengths.now place) }
{
    let mut found = PairWays {
        count: 0,
        longest: 0,
        length: 0,
    };
    for i in 0..ways.len() {
        found = with_way(found, &ways[i], place, i, lengths[i]);
    }
    if found.count < MOST_WAYS {
        None
    } else {
        Some(found.longest)
    }
}
