//! The greatest utilisation of a link.
ghost use Rattle.std.specs.Prelude.{◌≡◌, IsTrue, length, slice_index};
ghost use Rattle.te_model.specs.Network.{is_well_formed, link_count};
ghost use Rattle.local_search.specs.Loads.{IsPeakBelow};

use te_model::{Network, ceil_div};

/// The greatest utilisation, and a link that has it.
#[derive(Clone, Copy)]
pub struct Peak {
    pub link: u32,
    /// In millionths of the capacity, rounded up.
    pub parts: u128,
}

/// The greatest utilisation under the loads, which are in millionths: one for each link.
pub fn peak_of(net: &Network, loads: &[u128]) -> Peak
    requires network { IsTrue (is_well_formed net.now) }
    requires count { length loads.now ≡ link_count net.now }
    ensures { IsPeakBelow net.now (slice_index loads.now) (link_count net.now) result.link result.parts }
{
    let links = net.links.as_slice();
    let mut peak = Peak { link: 0, parts: 0 };
    for h in 0..links.len() {
        let parts = ceil_div(loads[h], u128::from(links[h].capacity));
        if parts > peak.parts {
            let link = h as u32;
            peak = Peak { link, parts };
        }
    }
    peak
}
