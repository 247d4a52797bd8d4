//! What the paths of an update put on each link: before it, after it, and what of this grows and shrinks.
ghost use Rattle.std.specs.Prelude.{◌≡◌, ◌+◌, ◌^◌, ◌<◌, ◌≤◌, ℕ, All, IfOk, IsTrue, length, slice_index};
ghost use Rattle.te_model.specs.Path.{amount_on, is_distinct};
ghost use Rattle.update_plan.specs.Loads.{AreLinkLoads, AreLoadsOf, IsUpdatePath, weight_of};

use crate::path::UpdatePath;
use multiplicative_lengths::add_wide_along;
use std::alloc::Global;
use te_model::{Items, Memory, Network};

/// By which weights of the paths a load is taken.
#[derive(Clone, Copy)]
pub enum WeightKind {
    Before,
    After,
    /// What `after` is above `before`, or 0.
    Growth,
    /// What `before` is above `after`, or 0.
    Decline,
}

/// The loads of the links in millionths, one number of each kind for each link.
#[derive(Drop)]
pub struct LinkLoads {
    pub before: Items<u128>,
    pub after: Items<u128>,
    pub growth: Items<u128>,
    pub decline: Items<u128>,
}

fn weight_of(kind: WeightKind, path: &UpdatePath) -> u64
    ensures { result ≡ weight_of kind path.now }
{
    match kind {
        WeightKind::Before => path.before,
        WeightKind::After => path.after,
        WeightKind::Growth => path.after.saturating_sub(path.before),
        WeightKind::Decline => path.before.saturating_sub(path.after),
    }
}

/// The load of each link by the weights of one kind.
fn loads_of(
    alloc: Global,
    net: &Network,
    demands: &[u64],
    paths: &[UpdatePath],
    kind: WeightKind,
) -> Result<Vec<u128>, Memory>
    requires demands { All (λ d. d ≤ 2 ^ 32) demands.now }
    requires paths { All (IsUpdatePath net.now (length demands.now)) paths.now }
    ensures { IfOk result (λ loads. AreLoadsOf net.now demands.now paths.now kind loads.items) }
{
    let count = net.links.as_slice().len();
    let mut loads = vec![in alloc; 0; count]?;
    for path in paths {
        let demand = demands[path.pair as usize];
        let amount = u128::from(demand) * u128::from(weight_of(kind, path));
        add_wide_along(&mut loads, path.links.as_slice(), amount);
    }
    Ok(loads)
}

/// The loads of each kind. `Memory` comes where memory is wanting.
pub fn link_loads(
    alloc: Global,
    net: &Network,
    demands: &[u64],
    paths: &[UpdatePath],
) -> Result<LinkLoads, Memory>
    requires demands { All (λ d. d ≤ 2 ^ 32) demands.now }
    requires paths { All (IsUpdatePath net.now (length demands.now)) paths.now }
    ensures { IfOk result (AreLinkLoads net.now demands.now paths.now) }
{
    let before = loads_of(alloc, net, demands, paths, WeightKind::Before)?;
    let after = loads_of(alloc, net, demands, paths, WeightKind::After)?;
    let growth = loads_of(alloc, net, demands, paths, WeightKind::Growth)?;
    let decline = loads_of(alloc, net, demands, paths, WeightKind::Decline)?;
    Ok(LinkLoads {
        before: Items::new(before),
        after: Items::new(after),
        growth: Items::new(growth),
        decline: Items::new(decline),
    })
}
