//! The lengths of links by their multipliers.
ghost use Rattle.std.specs.Prelude.{◌≡◌, ◌*◌, ◌≤◌, ◌^◌, IfOk, IsTrue, length, min};
ghost use Rattle.te_model.specs.Network.{is_well_formed, link_count};
ghost use Rattle.te_model.specs.Division.{quotient_up};
ghost use Rattle.multiplicative_lengths.specs.Growth.{first_multipliers, greatest_capacity, lengths_of};

use std::alloc::Global;
use te_model::{Memory, Network, ceil_div};

/// The multiplier of each link in the first round.
const FIRST_MULTIPLIER: u64 = 1024;

/// The greatest length of a link.
const MAX_LENGTH: u64 = 1 << 28;

/// The multipliers of the first round, one for each link.
///
/// `Memory` comes where memory is wanting.
pub fn first_multipliers(alloc: Global, net: &Network) -> Result<Vec<u64>, Memory>
    ensures { IfOk result (λ m. m.items ≡ first_multipliers net.now) }
{
    let multipliers = vec![in alloc; FIRST_MULTIPLIER; net.links.as_slice().len()]?;
    Ok(multipliers)
}

/// The greatest capacity of a link.
fn greatest_capacity(net: &Network) -> u64
    ensures { result ≡ greatest_capacity net.now }
{
    let links = net.links.as_slice();
    let mut most = 0;
    for h in 0..links.len() {
        most = most.max(links[h].capacity);
    }
    most
}

/// The multiplier by the greatest capacity over the capacity, rounded up, and at most 2^28.
fn length_of(multiplier: u64, most: u64, capacity: u64) -> u64
    requires { 1 ≤ capacity }
    ensures { result ≡ min (2 ^ 28) (quotient_up (multiplier * most) capacity) }
{
    let length = ceil_div(
        u128::from(multiplier) * u128::from(most),
        u128::from(capacity),
    );
    length.min(u128::from(MAX_LENGTH)) as u64
}

/// The lengths of the links by their multipliers: each is the multiplier by the greatest capacity over
/// the link's own, rounded up, and at most 2^28.
///
/// `multipliers` has one number for each link. `Memory` comes where memory is wanting.
pub fn lengths_of(alloc: Global, net: &Network, multipliers: &[u64]) -> Result<Vec<u64>, Memory>
    requires network { IsTrue (is_well_formed net.now) }
    requires count { length multipliers.now ≡ link_count net.now }
    ensures { IfOk result (λ l. l.items ≡ lengths_of net.now multipliers.now) }
{
    let links = net.links.as_slice();
    let most = greatest_capacity(net);
    let mut lengths = Vec::with_capacity(alloc, links.len())?;
    for h in 0..links.len() {
        lengths.push(length_of(multipliers[h], most, links[h].capacity))?;
    }
    Ok(lengths)
}
