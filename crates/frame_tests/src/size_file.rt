//! The files of the test commands.

use command_frame::{BytesFault, FileKind};
use std::alloc::Global;
use std::fmt;

/// A rule that a file breaks, and where.
#[derive(Clone, Copy)]
pub struct BrokenRule {
    pub number: u64,
    pub place: u64,
}

impl fmt::Display for BrokenRule {
    ghost use Rattle.std.specs.Prelude.{Some};
    ghost use Rattle.frame_tests.specs.SizeFile.{rule_words};

    ghost output = { λ rule. Some (rule_words rule.number rule.place) };

    fn fmt<W: fmt::Write>(&self, f: &mut fmt::Formatter<W>) -> fmt::Result {
        write!(f, "rule W{} at {}", self.number, self.place)
    }
}

/// Files that give their sizes.
#[derive(Clone, Copy)]
pub struct Sizes;

impl FileKind for Sizes {
    ghost use Rattle.frame_tests.specs.SizeFile.{sizes, size_limits};

    type Value = u64;

    type Refusal = BrokenRule;

    ghost is_ready = { λ _. Unit {0} };

    ghost kind = { λ _. sizes };

    ghost IsSound = { λ _ _. Unit {0} };

    ghost limited = { λ _. size_limits };

    fn limit(&self, _start: &[u8]) -> u64 {
        16
    }

    fn read(&self, _alloc: Global, bytes: &[u8]) -> Result<u64, BytesFault<BrokenRule>> {
        match bytes {
            [] => Err(BytesFault::Refused(BrokenRule {
                number: 1,
                place: 0,
            })),
            [_, ..] => Ok(bytes.len() as u64),
        }
    }
}
