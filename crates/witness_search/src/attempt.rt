//! A matrix that an attack tries, and what the scheme's routing of it shows.
ghost use Rattle.std.specs.Prelude.{◌≡◌, ◌≤◌, IfOk};
ghost use Rattle.te_model.specs.Validity.{IsValidHead};
ghost use Rattle.witness_search.specs.Attempts.{CanTry, IsAttempt, IsBetter, RoutesBy, pairs_of};
ghost use Rattle.witness_search.specs.Candidates.{comes_before, paths_by};

use ratio_witness::{Witness, performance_ratio};
use scheme::Scheme;
use std::alloc::Global;
use te_model::{Head, Items, Matrix, Memory, PairRoutes, PathShare};

/// A matrix, and the scale that shows that it is of the set.
#[derive(Drop)]
pub struct Tried {
    /// Its place among those that are tried.
    pub place: usize,
    pub demand: Matrix,
    pub x: u64,
    pub y: u64,
}

/// A witness of bound 0, and what it shows.
#[derive(Drop)]
pub struct Attempt {
    pub place: usize,
    /// The performance ratio, in millionths.
    pub ratio: u128,
    pub witness: Witness,
}

// The paths of each pair.
fn paths_of(alloc: Global, routes: Vec<PairRoutes>) -> Result<Items<Items<PathShare>>, Memory>
    ensures { IfOk result (λ rival. rival ≡ paths_by routes.items) }
{
    let mut rival = Vec::with_capacity(alloc, routes.len())?;
    for route in routes {
        rival.push(route.paths)?;
    }
    Ok(Items::new(rival))
}

/// What the scheme's routing of the matrix shows.
pub fn attempt_of<S: Scheme>(
    alloc: Global,
    head: &Head,
    rival: &S,
    plan: &S::Plan,
    tried: Tried,
) -> Result<Attempt, Memory>
    requires head { IsValidHead head.now }
    requires plan { S.is_plan rival.now head.now.network (pairs_of head.now) plan.now }
    requires few { S.PATHS ≤ 32 }
    requires tried { CanTry head.now tried }
    ensures { IfOk result (IsAttempt head.now (RoutesBy (S.relates rival.now head.now.network (pairs_of head.now) plan.now)) tried) }
{
    let (routing, _note) = rival.route(alloc, &head.network, plan, &tried.demand)?;
    let paths = paths_of(alloc, routing.routes.into_vec())?;
    let witness = Witness {
        bound: 0,
        x: tried.x,
        y: tried.y,
        demand: tried.demand,
        rival: paths,
    };
    let ratio = performance_ratio(head, &witness);
    Ok(Attempt {
        place: tried.place,
        ratio,
        witness,
    })
}

/// Whether the ratio comes before that of the other place: it is greater, or as great and of an earlier place.
pub fn comes_before(place: usize, other: usize, ratio: u128, other_ratio: u128) -> bool
    ensures { result ≡ comes_before place other ratio other_ratio }
{
    other_ratio < ratio || ratio == other_ratio && place < other
}

/// The attempt of the greater ratio, and of equal ones the earlier.
pub fn better_of(best: Attempt, next: Attempt) -> Attempt
    ensures { IsBetter best next result }
{
    if comes_before(next.place, best.place, next.ratio, best.ratio) {
        next
    } else {
        best
    }
}
