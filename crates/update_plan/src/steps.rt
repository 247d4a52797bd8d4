//! The least number of steps: a quotient for each link, and the greatest of these.
ghost use Rattle.std.specs.Prelude.{◌≡◌, ◌↔◌, ◌*◌, ◌≤◌, ℕ, IfOk, IfErr};
ghost use Rattle.te_model.specs.declared.units.TheConstants.{SHARE_UNIT};
ghost use Rattle.te_model.specs.Network.{link_count};
ghost use Rattle.update_plan.specs.Laws.{AreEnough};
ghost use Rattle.update_plan.specs.Loads.{HasLoads};
ghost use Rattle.update_plan.specs.Steps.{IsFirstWithoutSteps, IsStepCount};
ghost use Rattle.update_plan.specs.declared.path.TheConstants.{MAX_STEPS};

use crate::loads::LinkLoads;
use crate::path::MAX_STEPS;
use te_model::{Network, SHARE_UNIT, ceil_div};

/// The least number of steps of which each has room for its part of what moves; more than 1000 where there is none.
fn steps_for(moves: u128, free: u128) -> u128
    ensures { (K : ℕ) → K ≤ MAX_STEPS → (moves ≤ K * free) ↔ (result ≤ K) }
{
    if moves == 0 {
        0
    } else if free == 0 {
        u128::from(MAX_STEPS) + 1
    } else {
        ceil_div(moves, free)
    }
}

/// The least number of steps of a link of this capacity in millionths; more than 1000 where there is none.
fn steps_on(whole: u128, before: u128, after: u128, growth: u128, decline: u128) -> u128
    ensures some { 1 ≤ result }
    ensures least { (K : ℕ) → 1 ≤ K → K ≤ MAX_STEPS → AreEnough whole before after growth decline K ↔ (result ≤ K) }
{
    if whole < before || whole < after {
        return u128::from(MAX_STEPS) + 1;
    }
    let growing = steps_for(growth, whole - before);
    let shrinking = steps_for(decline, whole - after);
    growing.max(shrinking).max(1)
}

fn in_millionths(capacity: u64) -> u128
    ensures { result ≡ SHARE_UNIT * capacity }
{
    u128::from(SHARE_UNIT) * u128::from(capacity)
}

/// The least number of steps of all links, or the first link that has none up to 1000.
pub fn least_steps(net: &Network, loads: &LinkLoads) -> Result<u32, u32>
    requires { HasLoads (link_count net.now) loads.now }
    ensures steps { IfOk result (IsStepCount net.now loads.now) }
    ensures none { IfErr result (IsFirstWithoutSteps net.now loads.now) }
{
    let links = net.links.as_slice();
    let before = loads.before.as_slice();
    let after = loads.after.as_slice();
    let growth = loads.growth.as_slice();
    let decline = loads.decline.as_slice();
    let mut most = 1;
    for h in 0..links.len() {
        let whole = in_millionths(links[h].capacity);
        let steps = steps_on(whole, before[h], after[h], growth[h], decline[h]);
        if steps > u128::from(MAX_STEPS) {
            return Err(h as u32);
        }
        most = most.max(steps as u32);
    }
    Ok(most)
}
