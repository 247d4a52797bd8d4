//! Rates, in which a pair may have no path.
ghost use Rattle.std.specs.Prelude.{◌≡◌, [], IfOk, IsTrue};
ghost use Rattle.local_recovery.specs.Spread.{IsTaken};
ghost use Rattle.local_recovery.specs.Rates.{have_rates};

use std::alloc::Global;
use te_model::{Items, Memory, Pair, PairRoutes, Pairs};

/// The weighted paths of each pair after a failure. A pair has no path, or weights that sum to one million.
#[derive(Drop)]
pub struct Recovered {
    pub routes: Items<PairRoutes>,
    ghost rates: { IsTrue (have_rates routes) },
}

/// A pair without a path.
fn without_path(alloc: Global, pair: Pair) -> PairRoutes
    ensures { result ≡ record { pair = pair; paths = [] } }
{
    PairRoutes {
        pair,
        paths: Items::new(Vec::new(alloc)),
    }
}

/// The routes of the pair, if they are the last of those that are left, and else none for it.
fn taken_for(alloc: Global, pair: Pair, left: &mut Vec<PairRoutes>) -> PairRoutes
    ensures { IsTaken pair left.old.items left.new.items result }
{
    let is_last = match left.last() {
        Some(routes) => routes.pair == pair,
        None => false,
    };
    if is_last {
        if let Some(routes) = left.pop() {
            return routes;
        }
    }
    without_path(alloc, pair)
}

impl Recovered {
    ghost use Rattle.local_recovery.specs.Rates.{pairs_of};
    ghost use Rattle.local_recovery.specs.Spread.{IsSublist, IsSpread};

    /// The same over `pairs`, which hold its pairs in order: the added pairs have no path.
    ///
    /// `Memory` comes where memory is wanting.
    pub fn spread(self, alloc: Global, pairs: &Pairs) -> Result<Recovered, Memory>
        requires { IsSublist (pairs_of self.routes) pairs.now.list }
        ensures { IfOk result (λ r. IsSpread pairs.now.list self.routes r.routes) }
    {
        let mut left = self.routes.into_vec();
        left.reverse();
        let mut list = Vec::new(alloc);
        for pair in pairs.list.as_slice() {
            list.push(taken_for(alloc, *pair, &mut left))?;
        }
        Ok(Recovered {
            routes: Items::new(list),
        })
    }
}
