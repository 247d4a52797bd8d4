//! How a descent goes on: with ever smaller shares and ever sharper lengths.
ghost use Rattle.std.specs.Prelude.{◌≡◌, ◌↔◌, ◌^◌, ◌<◌, ◌≤◌, IsTrue};
ghost use Rattle.rate_sweeps.specs.Descents.{IsNextPace, IsPace, first_pace};

/// How many turns a descent has at most.
pub const TURNS: usize = 400;

/// How many turns without a gain come before the shares become smaller.
const IDLE_TURNS: u32 = 5;

/// How often usages are squared at the start.
const FIRST_SQUARINGS: u32 = 6;

/// How often usages are squared at most.
const MAX_SQUARINGS: u32 = 9;

/// By what weights are divided at the start.
const FIRST_DIVISOR: u64 = 128;

/// The descent ends where weights would be divided by more than this.
const LAST_DIVISOR: u64 = 2048;

/// How a descent goes on.
#[derive(Clone, Copy)]
pub struct Pace {
    /// By what a turn divides a weight, of which it takes one part.
    pub step_divisor: u64,
    /// How often usages are squared.
    pub squarings: u32,
    /// How many turns brought no gain.
    pub idle: u32,
    /// The greatest utilisation at the last gain, in millionths of the capacity, rounded up.
    pub least: u128,
}

/// The pace of a routing of this greatest utilisation.
pub fn first_pace(most: u128) -> Pace
    ensures pace { IsPace result }
    ensures first { result ≡ first_pace most }
{
    Pace {
        step_divisor: FIRST_DIVISOR,
        squarings: FIRST_SQUARINGS,
        idle: 0,
        least: most,
    }
}

/// Whether the descent is at its end: by more than that no weight is divided.
pub fn is_over(pace: Pace) -> bool
    ensures { IsTrue result ↔ (LAST_DIVISOR < pace.step_divisor) }
{
    pace.step_divisor > LAST_DIVISOR
}

/// The pace after a turn to this greatest utilisation. A gain is a fall by more than one of 2000 parts; where none comes for long,
/// the shares become smaller.
pub fn next_pace(pace: Pace, most: u128) -> Pace
    requires { IsPace pace }
    ensures pace { IsPace result }
    ensures next { IsNextPace pace most result }
{
    let mut next = pace;
    if most < pace.least - pace.least / 2000 {
        next.least = most;
        next.idle = 0;
    } else if pace.idle < IDLE_TURNS {
        next.idle = pace.idle + 1;
    } else {
        next.idle = 0;
        next.step_divisor = 2 * pace.step_divisor.min(LAST_DIVISOR);
        next.squarings = (pace.squarings + 1).min(MAX_SQUARINGS);
    }
    next
}
