//! Shares by distances: how much a matrix uses a link for what it costs to carry it.
ghost use Rattle.std.specs.Prelude.{◌≡◌, length};
ghost use Rattle.worst_matrices.specs.Usage.{HasSmallBounds};

use te_model::DemandSet;

/// How often the greatest quotient between bounds is sought anew. The quotients rise, and few of them are needed.
const ROUNDS: usize = 8;

/// A share and a distance, of a pair or summed by the demands of a matrix.
#[derive(Clone, Copy)]
pub struct Quotient {
    pub share: u128,
    pub distance: u128,
}

impl Quotient {
    /// A share by the distance of the quotient.
    pub fn worth(self, share: u64) -> u128 {
        u128::from(share).saturating_mul(self.distance)
    }

    /// A distance by the share of the quotient. It is the worth of a share of the same quotient.
    pub fn price(self, distance: u64) -> u128 {
        self.share.saturating_mul(u128::from(distance))
    }
}

/// The quotient of the dearest pair: the first with the greatest share by distance.
pub fn dearest(shares: &[u64], distances: &[u64]) -> Quotient
    requires { length distances.now ≡ length shares.now }
{
    let mut top = Quotient {
        share: 0,
        distance: 1,
    };
    for p in 0..shares.len() {
        if top.worth(shares[p]) > top.price(distances[p]) {
            top = Quotient {
                share: u128::from(shares[p]),
                distance: u128::from(distances[p]),
            };
        }
    }
    top
}

/// The demand of a pair in the matrix between the bounds that gains most on the quotient: the upper one where the share is worth its
/// price.
pub fn demand_by(set: &DemandSet, pair: usize, share: u64, distance: u64, top: Quotient) -> u64
    requires { HasSmallBounds set.now }
{
    if top.worth(share) >= top.price(distance) {
        set.upper(pair)
    } else {
        set.lower(pair)
    }
}

/// The quotient of the matrix that gains most on the other quotient.
fn gained(set: &DemandSet, shares: &[u64], distances: &[u64], top: Quotient) -> Quotient
    requires set { HasSmallBounds set.now }
    requires count { length distances.now ≡ length shares.now }
{
    let mut sum = Quotient {
        share: 0,
        distance: 0,
    };
    for p in 0..shares.len() {
        let demand = u128::from(demand_by(set, p, shares[p], distances[p], top));
        let share = demand.saturating_mul(u128::from(shares[p]));
        let distance = demand.saturating_mul(u128::from(distances[p]));
        sum = Quotient {
            share: sum.share.saturating_add(share),
            distance: sum.distance.saturating_add(distance),
        };
    }
    sum
}

/// The greatest quotient of a matrix between the bounds of the set, sought by steps that each gain on the one before (Dinkelbach,
/// 1967).
pub fn greatest_between(set: &DemandSet, shares: &[u64], distances: &[u64]) -> Quotient
    requires set { HasSmallBounds set.now }
    requires count { length distances.now ≡ length shares.now }
{
    let mut top = Quotient {
        share: 0,
        distance: 1,
    };
    for _ in 0..ROUNDS {
        top = gained(set, shares, distances, top);
    }
    top
}
