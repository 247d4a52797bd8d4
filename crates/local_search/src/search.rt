//! The search for a move that brings every link within so many times its capacity.
ghost use Rattle.std.specs.Prelude.{◌≡◌, ◌↔◌, ◌*◌, ◌<◌, ◌≤◌, ◌^◌, ℕ, All, Contains, IfNone, IfOk, IfSome, IsTrue, length, slice_index};
ghost use Rattle.te_model.specs.Network.{capacity_of, is_well_formed, link_count};
ghost use Rattle.routing.specs.Routes.{AreDemands};
ghost use Rattle.local_search.specs.Loads.{AreWithin, AreWithinOn, HasAbove, load_after};
ghost use Rattle.routing.specs.Merge.{path_at};
ghost use Rattle.local_search.specs.Moves.{sizes};
ghost use Rattle.local_search.specs.Pairs.{HasHolders};
ghost use Rattle.local_search.specs.Search.{Fits, FitsAt, loads_moved};

use crate::loads::load_after;
use crate::step::{Aim, Move, SIZES, Target};
use std::alloc::Global;
use te_model::{Matrix, Memory, Network, PairRoutes, PathShare};

/// An amount that goes from the links of one path to those of another.
#[derive(Clone, Copy)]
struct Shift<'a> {
    from: &'a [u32],
    to: &'a [u32],
    amount: u128,
}

/// Whether the link, if the network has it, carries no more than `times` its capacity once the amount has gone.
fn is_within(net: &Network, loads: &[u128], times: u128, link: u32, shift: &Shift<'_>) -> bool
    requires network { IsTrue (is_well_formed net.now) }
    requires count { length loads.now ≡ link_count net.now }
    requires small { All (λ x. x < 2 ^ 84) loads.now }
    requires times { times < 2 ^ 85 }
    requires amount { shift.now.amount ≤ 2 ^ 64 }
    ensures { IsTrue result ↔ (link < link_count net.now → load_after (slice_index loads.now link) shift.now.from.now shift.now.to.now shift.now.amount link ≤ times * capacity_of net.now link) }
{
    let h = link as usize;
    if h >= loads.len() {
        return true;
    }
    let load = load_after(loads[h], link, shift.from, shift.to, shift.amount);
    load <= times * u128::from(net.links.as_slice()[h].capacity)
}

/// The links that carry more than `times` their capacity. `Memory` comes where memory is wanting.
pub fn links_above(
    alloc: Global,
    net: &Network,
    loads: &[u128],
    times: u128,
) -> Result<Vec<u32>, Memory>
    requires network { IsTrue (is_well_formed net.now) }
    requires count { length loads.now ≡ link_count net.now }
    requires times { times < 2 ^ 85 }
    ensures { IfOk result (λ above. HasAbove net.now times (slice_index loads.now) above.items) }
{
    let links = net.links.as_slice();
    let mut above = Vec::new(alloc);
    for h in 0..links.len() {
        if times * u128::from(links[h].capacity) < loads[h] {
            above.push(h as u32)?;
        }
    }
    Ok(above)
}

/// Whether none of these links, of those that the network has, carries more than `times` its capacity once the amount has gone.
fn are_within_on(
    net: &Network,
    loads: &[u128],
    times: u128,
    links: &[u32],
    shift: &Shift<'_>,
) -> bool
    requires network { IsTrue (is_well_formed net.now) }
    requires count { length loads.now ≡ link_count net.now }
    requires small { All (λ x. x < 2 ^ 84) loads.now }
    requires times { times < 2 ^ 85 }
    requires amount { shift.now.amount ≤ 2 ^ 64 }
    ensures { IsTrue result ↔ AreWithinOn net.now times (λ e. load_after (slice_index loads.now e) shift.now.from.now shift.now.to.now shift.now.amount e) links.now }
{
    for link in links {
        if !is_within(net, loads, times, *link, shift) {
            return false;
        }
    }
    true
}

/// Whether no link carries more than the aim allows once the amount has gone. Only links that carry more now, and those to which it goes,
/// may.
fn are_within(net: &Network, loads: &[u128], aim: &Aim, shift: &Shift<'_>) -> bool
    requires network { IsTrue (is_well_formed net.now) }
    requires count { length loads.now ≡ link_count net.now }
    requires small { All (λ x. x < 2 ^ 84) loads.now }
    requires times { aim.now.times < 2 ^ 85 }
    requires above { HasAbove net.now aim.now.times (slice_index loads.now) aim.now.above }
    requires amount { shift.now.amount ≤ 2 ^ 64 }
    ensures { IsTrue result ↔ AreWithin net.now aim.now.times (λ e. load_after (slice_index loads.now e) shift.now.from.now shift.now.to.now shift.now.amount e) }
{
    let above = aim.above.as_slice();
    if !are_within_on(net, loads, aim.times, above, shift) {
        return false;
    }
    are_within_on(net, loads, aim.times, shift.to, shift)
}

/// The first size of a move from the path to these links that fits.
fn fitting_size(
    net: &Network,
    loads: &[u128],
    aim: &Aim,
    demand: u64,
    from: &PathShare,
    to: &[u32],
) -> Option<u64>
    requires network { IsTrue (is_well_formed net.now) }
    requires count { length loads.now ≡ link_count net.now }
    requires small { All (λ x. x < 2 ^ 84) loads.now }
    requires times { aim.now.times < 2 ^ 85 }
    requires above { HasAbove net.now aim.now.times (slice_index loads.now) aim.now.above }
    requires demand { demand ≤ 2 ^ 32 }
    ensures some { IfSome result (λ size. Contains sizes size × AreWithin net.now aim.now.times (loads_moved loads.now demand from.now to.now size)) }
    ensures none { IfNone result ((size : ℕ) → Contains sizes size → AreWithin net.now aim.now.times (loads_moved loads.now demand from.now to.now size) → ⊥) }
{
    for size in SIZES {
        let amount = u128::from(demand) * u128::from(size.min(from.weight));
        let links = from.links.as_slice();
        let shift = Shift {
            from: links,
            to,
            amount,
        };
        if are_within(net, loads, aim, &shift) {
            return Some(size);
        }
    }
    None
}

/// The first candidate with a size of a move from the path to it that fits.
fn fitting_target(
    net: &Network,
    loads: &[u128],
    aim: &Aim,
    demand: u64,
    from: &PathShare,
    candidates: &[PathShare],
) -> Option<Target>
    requires network { IsTrue (is_well_formed net.now) }
    requires count { length loads.now ≡ link_count net.now }
    requires small { All (λ x. x < 2 ^ 84) loads.now }
    requires times { aim.now.times < 2 ^ 85 }
    requires above { HasAbove net.now aim.now.times (slice_index loads.now) aim.now.above }
    requires demand { demand ≤ 2 ^ 32 }
    ensures some { IfSome result (λ t. Fits net.now loads.now aim.now.times demand from.now candidates.now t.candidate t.size) }
    ensures none { IfNone result ((j size : ℕ) → Fits net.now loads.now aim.now.times demand from.now candidates.now j size → ⊥) }
{
    for j in 0..candidates.len() {
        let to = candidates[j].links.as_slice();
        if let Some(size) = fitting_size(net, loads, aim, demand, from, to) {
            return Some(Target { candidate: j, size });
        }
    }
    None
}

/// The first path of a pair, by its place, from which a move fits, and to which candidate. Only
/// paths that hold the link of the aim come in question, since it carries too much.
fn fitting_path(
    net: &Network,
    loads: &[u128],
    aim: &Aim,
    demand: u64,
    paths: &[PathShare],
    candidates: &[PathShare],
) -> Option<(usize, Target)>
    requires network { IsTrue (is_well_formed net.now) }
    requires count { length loads.now ≡ link_count net.now }
    requires small { All (λ x. x < 2 ^ 84) loads.now }
    requires times { aim.now.times < 2 ^ 85 }
    requires above { HasAbove net.now aim.now.times (slice_index loads.now) aim.now.above }
    requires link { aim.now.link < link_count net.now }
    requires over { aim.now.times * capacity_of net.now aim.now.link < slice_index loads.now aim.now.link }
    requires demand { demand ≤ 2 ^ 32 }
    ensures some { IfSome result (λ r. (r.0 < length paths.now) × Fits net.now loads.now aim.now.times demand (path_at paths.now r.0) candidates.now r.1.candidate r.1.size) }
    ensures none { IfNone result ((k j size : ℕ) → k < length paths.now → Fits net.now loads.now aim.now.times demand (path_at paths.now k) candidates.now j size → ⊥) }
{
    for k in 0..paths.len() {
        let path = &paths[k];
        if path.links.as_slice().contains(&aim.link) {
            if let Some(target) = fitting_target(net, loads, aim, demand, path, candidates) {
                return Some((k, target));
            }
        }
    }
    None
}

/// The first move that brings every link within the aim. `holders` has each pair of which a path holds
/// the link of the aim: no move of another pair takes anything off that link.
pub fn fitting_move(
    net: &Network,
    matrix: &Matrix,
    loads: &[u128],
    aim: &Aim,
    routes: &[PairRoutes],
    candidates: &[PairRoutes],
    holders: &[u32],
) -> Option<Move>
    requires network { IsTrue (is_well_formed net.now) }
    requires count { length loads.now ≡ link_count net.now }
    requires small { All (λ x. x < 2 ^ 84) loads.now }
    requires times { aim.now.times < 2 ^ 85 }
    requires above { HasAbove net.now aim.now.times (slice_index loads.now) aim.now.above }
    requires link { aim.now.link < link_count net.now }
    requires over { aim.now.times * capacity_of net.now aim.now.link < slice_index loads.now aim.now.link }
    requires pairs { length candidates.now ≡ length routes.now }
    requires demands { AreDemands (length routes.now) matrix.now.demand }
    requires holders { HasHolders routes.now aim.now.link holders.now }
    ensures some { IfSome result (λ m. FitsAt net.now loads.now aim.now.times matrix.now.demand routes.now candidates.now m.pair m.from m.target.candidate m.target.size) }
    ensures none { IfNone result ((p k j size : ℕ) → FitsAt net.now loads.now aim.now.times matrix.now.demand routes.now candidates.now p k j size → ⊥) }
{
    for holder in holders {
        let pair = *holder as usize;
        let demand = matrix.demand.as_slice()[pair];
        let paths = routes[pair].paths.as_slice();
        let others = candidates[pair].paths.as_slice();
        if let Some((from, target)) = fitting_path(net, loads, aim, demand, paths, others) {
            return Some(Move { pair, from, target });
        }
    }
    None
}
