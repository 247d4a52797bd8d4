//! How far links are used in a step.
ghost use Rattle.std.specs.Prelude.{◌≡◌, ◌*◌, ◌≤◌, EachIndex, IsTrue, length, slice_index};
ghost use Rattle.te_model.specs.declared.units.TheConstants.{RATIO_UNIT};
ghost use Rattle.te_model.specs.Network.{is_well_formed, link_count, capacity_of};
ghost use Rattle.te_model.specs.Division.{quotient_up};
ghost use Rattle.series_simulation.specs.Simulation.{peak_of};

use te_model::{Network, RATIO_UNIT, ceil_div};

/// Units over the capacity of a link, in millionths, rounded up.
pub fn utilisation(units: u64, capacity: u64) -> u128
    requires { 1 ≤ capacity }
    ensures { result ≡ quotient_up (units * RATIO_UNIT) capacity }
{
    let millionths = u128::from(units) * u128::from(RATIO_UNIT);
    ceil_div(millionths, u128::from(capacity))
}

/// The same of what a link carried, which is at most its capacity.
fn carried_utilisation(carried: u64, capacity: u64) -> u64
    requires some { 1 ≤ capacity }
    requires within { carried ≤ capacity }
    ensures { result ≡ quotient_up (carried * RATIO_UNIT) capacity }
{
    utilisation(carried, capacity) as u64
}

/// The greatest over the links of what they carried over their capacities, in millionths, rounded up, or 0 for a network
/// without links. `carried` has one number for each link.
pub fn peak(net: &Network, carried: &[u64]) -> u64
    requires network { IsTrue (is_well_formed net.now) }
    requires count { length carried.now ≡ link_count net.now }
    requires within { EachIndex carried.now (λ e. slice_index carried.now e ≤ capacity_of net.now e) }
    ensures { result ≡ peak_of net.now carried.now }
{
    let links = net.links.as_slice();
    let mut most = 0;
    for e in 0..links.len() {
        most = most.max(carried_utilisation(carried[e], links[e].capacity));
    }
    most
}
