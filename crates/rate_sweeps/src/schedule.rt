//! How many stages of sweeps there are, how many sweeps each has, and by what their steps are divided.

/// How many sweeps a stage has of which only the loads are made. The steps of each stage are half as long as those of the one before.
pub const SWEEPS: usize = 40;

/// How many such stages come before those whose paths are kept.
pub const STAGES: usize = 2;

/// By what steps are divided in the first of these stages.
pub const FIRST_STAGE_DIVISOR: u64 = 8;

/// By what steps are divided in the first stage whose paths are kept.
pub const FIRST_KEPT_DIVISOR: u64 = 32;

/// By what steps are divided in the second stage whose paths are kept.
pub const SECOND_KEPT_DIVISOR: u64 = 64;

/// How many sweeps of a stage whose paths are kept come before those that count.
pub const UNCOUNTED: usize = 10;

/// How many sweeps of a stage whose paths are kept count.
pub const COUNTED: usize = 30;

/// How many stages come after a descent, for the bound from below alone.
pub const BOUND_STAGES: usize = 5;

/// By what steps are divided in the first stage after a descent.
pub const FIRST_BOUND_DIVISOR: u64 = 8;

/// By what steps are divided at most.
pub const MAX_DIVISOR: u64 = 128;
