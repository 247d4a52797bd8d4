//! What searches for all matrices may spend, by the size of the network.
ghost use Rattle.std.specs.Prelude.{◌≡◌, ◌≤◌};

use te_model::Network;

/// The most links of a small network.
const FEW_LINKS: usize = 128;

/// What the searches of the links of a network spend.
#[derive(Clone, Copy)]
pub struct Effort {
    /// The sweeps without a search of rows after a search that showed a new way.
    pub between: usize,
    /// The sweeps of a whole stage of a second search of a link.
    pub second_sweeps: usize,
    /// A need is good enough for a first search that is at most one of so many parts above the floor, and for a second one.
    pub first_slack: u128,
    pub second_slack: u128,
    /// A need is good enough without a second search that is at most one of so many parts above the floor.
    pub last_slack: u128,
}

/// What the searches of a small network spend, where they cost little.
const WHOLE: Effort = Effort {
    between: 5,
    second_sweeps: 240,
    first_slack: 500,
    second_slack: 500,
    last_slack: 200,
};

/// What they spend on a larger network, where hundreds of links may need nearly the same. On the networks that were tried ratios were at
/// most a hundredth greater; no clause says so.
const PART: Effort = Effort {
    between: 3,
    second_sweeps: 80,
    first_slack: 200,
    second_slack: 100,
    last_slack: 100,
};

/// What the searches of the links of the network spend.
pub fn effort_of(net: &Network) -> Effort
    ensures between { result.between ≤ 23 }
    ensures first { 1 ≤ result.first_slack }
    ensures second { 1 ≤ result.second_slack }
    ensures last { 1 ≤ result.last_slack }
{
    if net.links.as_slice().len() <= FEW_LINKS {
        WHOLE
    } else {
        PART
    }
}
