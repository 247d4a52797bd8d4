//! What one sweep goes by: the size of its steps, the ratio that it seeks, and the numbers that follow from them.
ghost use Rattle.std.specs.Prelude.{◌≡◌, ◌*◌, ◌/◌, ◌^◌, ◌<◌, ◌≤◌};
ghost use Rattle.robust_routing.specs.Sweep.{IsSweep, IsSweepAt, allowance, allowed_by, amount, even_share, goal_of, halved, looks, nearness, phase_of, price_after, price_alone, quotient_of, ratio_of};

use te_model::RATIO_UNIT;

/// The rate of a whole demand.
pub const WHOLE: u64 = 1 << 30;

/// How many pairs take turns to look for a path, where steps are small.
const PAIRS_IN_TURN: usize = 4;

/// The most parts of a step in sweeps in which each pair looks for a path.
const GREAT_STEPS: u64 = 4;

/// How many sweeps there are.
pub const SWEEPS: usize = 880;

/// The greatest share that a pair is allowed on a link.
const MAX_SHARE: u64 = 4_294_967_295;

/// The ratio that the first sweep seeks, in millionths.
const FIRST_GOAL: u64 = 4_000_000;

/// What quotients of shares and allowances are counted in.
const QUOTIENT_UNIT: u64 = 1 << 16;

/// How fast what a pair counts for falls with its quotient.
const SHARPNESS: u64 = 6;

/// The greatest price of a link.
const MAX_PRICE: u64 = (1 << 28) - 1;

/// What a sweep goes by.
#[derive(Clone, Copy)]
pub struct Sweep {
    /// A step is one of so many parts.
    pub parts: u64,
    /// The ratio that is sought, in millionths.
    pub goal: u64,
    /// What is added to shares and to allowances, so that a pair without a share counts.
    pub slack: u64,
    /// A price moves by its whole step, halved so often.
    pub halvings: u64,
    /// Of four pairs in turn, which one looks for a path.
    pub turn: usize,
}

/// The phase of the sweep of this number: steps are half as great in each as in the one before.
fn phase_of(number: usize) -> u64
    ensures exact { result ≡ phase_of number }
    ensures limits { (1 ≤ result) × (result ≤ 7) }
{
    if number < 40 {
        1
    } else if number < 100 {
        2
    } else if number < 180 {
        3
    } else if number < 280 {
        4
    } else if number < 430 {
        5
    } else if number < 630 {
        6
    } else {
        7
    }
}

/// The ratio that is sought, where steps have so many parts: less than the least so far by a tenth of a step.
fn goal_of(parts: u64, least: Option<u64>) -> u64
    requires { (1 ≤ parts) × (parts ≤ 128) }
    ensures { result ≡ goal_of parts least }
{
    match least {
        Some(ratio) => ratio.saturating_sub(ratio / (10 * parts)),
        None => FIRST_GOAL,
    }
}

/// The sweep of this number, where `least` is the least ratio that a sweep before it has proved, if there is one.
#[tactic(auto, using(crate::proofs::Sweeping::phase_parts, crate::proofs::Sweeping::slack_limits))]
pub fn sweep_of(number: usize, least: Option<u64>) -> Sweep
    ensures limits { IsSweep result }
    ensures exact { IsSweepAt number least result }
{
    let phase = phase_of(number);
    let parts = 1 << phase;
    Sweep {
        parts,
        goal: goal_of(parts, least),
        slack: WHOLE / (10 + parts),
        halvings: phase.saturating_sub(2),
        turn: number % PAIRS_IN_TURN,
    }
}

/// The unit of rates, halved as often as the quotient says.
fn halved(quotient: u64) -> u64
    ensures exact { result ≡ halved quotient }
    ensures limit { result ≤ 2 ^ 30 }
{
    let times = quotient / QUOTIENT_UNIT;
    if times > 29 {
        return 0;
    }
    let between = WHOLE - quotient % QUOTIENT_UNIT * 8192;
    (between >> times).min(WHOLE)
}

/// The share of a pair on a link with which the link's weights prove a ratio of one, by the distance of the pair.
pub fn even_share(factor: u128, distance: u64) -> u64
    ensures exact { result ≡ even_share factor distance }
    ensures limit { result < 2 ^ 32 }
{
    let share = factor.saturating_mul(u128::from(distance)) / (1 << 50);
    share.min(u128::from(MAX_SHARE)) as u64
}

/// The ratio that a share proves, in millionths.
pub fn ratio_of(share: u64, even: u64) -> u64
    requires { share < 2 ^ 32 }
    ensures { result ≡ ratio_of share even }
{
    share * RATIO_UNIT / even.max(1)
}

impl Sweep {
    /// The share of a pair on a link with which the link's weights prove the ratio that is sought.
    pub fn allowance(self, even: u64) -> u64
        ensures exact { result ≡ allowance self even }
        ensures limit { result < 2 ^ 32 }
    {
        (even.saturating_mul(self.goal) / RATIO_UNIT).min(MAX_SHARE)
    }

    /// The quotient of a share and what is allowed, both with the slack.
    pub fn quotient(self, share: u64, allowance: u64) -> u64
        requires sweep { IsSweep self }
        requires share { share < 2 ^ 32 }
        requires allowance { allowance < 2 ^ 32 }
        ensures { result ≡ quotient_of self share allowance }
    {
        (share + self.slack) * QUOTIENT_UNIT / (allowance + self.slack)
    }

    /// The share that is allowed where a share has this quotient, to within what the quotient's rounding leaves open.
    pub fn allowed(self, share: u64, quotient: u64) -> u64
        requires sweep { IsSweep self }
        requires share { share < 2 ^ 32 }
        ensures { result ≡ allowed_by self share quotient }
    {
        ((share + self.slack) * QUOTIENT_UNIT / quotient.max(1)).saturating_sub(self.slack)
    }

    /// How much a pair or link of this quotient counts beside one of the greatest: that counts `WHOLE`.
    pub fn nearness(self, greatest: u64, quotient: u64) -> u64
        requires { IsSweep self }
        ensures exact { result ≡ nearness self greatest quotient }
        ensures limit { result ≤ 2 ^ 30 }
    {
        let below = greatest.saturating_sub(quotient);
        halved(below.saturating_mul(SHARPNESS * self.parts))
    }

    /// What a pair sends against a link.
    pub fn amount(self, nearness: u64, quotient: u64, share: u64) -> u128
        requires sweep { IsSweep self }
        requires share { share < 2 ^ 32 }
        ensures { result ≡ amount self nearness quotient share }
    {
        let square = u128::from(quotient).saturating_mul(u128::from(quotient));
        u128::from(nearness).saturating_mul(square) / u128::from(share + self.slack)
    }

    /// The price of a link for a pair by this sweep alone.
    fn price_alone(self, nearness: u64, quotient: u64, share: u64) -> u64
        requires sweep { IsSweep self }
        requires nearness { nearness ≤ 2 ^ 30 }
        requires share { share < 2 ^ 32 }
        ensures { result ≡ price_alone self nearness quotient share }
    {
        let product = (16 * nearness).saturating_mul(quotient);
        (product / (share + self.slack)).min(MAX_PRICE)
    }

    /// The price of a link for a pair after the sweep, by the price before it. It moves by a part of the way.
    pub fn price(self, old: u64, nearness: u64, quotient: u64, share: u64) -> u64
        requires sweep { IsSweep self }
        requires nearness { nearness ≤ 2 ^ 30 }
        requires share { share < 2 ^ 32 }
        ensures exact { result ≡ price_after self old nearness quotient share }
        ensures limit { result < 2 ^ 28 }
    {
        let alone = self.price_alone(nearness, quotient, share);
        let kept = old.saturating_sub(old >> self.halvings);
        kept.saturating_add(alone >> self.halvings).min(MAX_PRICE)
    }

    /// Whether the pair looks for a path in this sweep: in each where steps are great, and else in one of four.
    pub fn looks(self, pair: usize) -> bool
        ensures { result ≡ looks self pair }
    {
        self.parts <= GREAT_STEPS || pair % PAIRS_IN_TURN == self.turn
    }

    /// The rate with which a new path begins.
    pub fn first_rate(self) -> u64
        requires { IsSweep self }
        ensures { result ≡ 2 ^ 30 / (50 * self.parts) }
    {
        WHOLE / (50 * self.parts)
    }
}
