//! The calls of a port, which only clauses read.
ghost use Rattle.std.specs.Prelude.{◌≡◌, List, [], ◌∷◌, ◌++◌};
ghost use Rattle.std.specs.Borrow.{ftrue};
ghost use Rattle.te_ports.specs.Calls.{SystemCall, system_call};

use crate::SystemFault;
use std::marker::Model;

/// A call and its answer.
#[derive(Clone, Copy, Drop)]
pub enum Call<'a> {
    /// A read of the file of this name at this place, with so much room: the bytes that it gave, or its fault.
    Read {
        name: &'a str,
        at: u64,
        room: usize,
        answer: Result<&'a [u8], SystemFault>,
    },
    /// A write of these bytes: how many it took, or its fault.
    Write {
        bytes: &'a [u8],
        answer: Result<usize, SystemFault>,
    },
}

/// The calls of a port, in their order. They take no memory: only clauses read them.
///
/// A log is what its port notes. That a port makes the calls that it notes, and notes those that it makes, no clause says:
/// it has to be read in the port's own body.
#[derive(Drop)]
pub struct Log {
    pub ghost calls: { List SystemCall },
}

impl Model for Log {
    ghost also_owns = { λ _. ftrue };
}

impl Log {
    /// No call was made.
    pub fn new() -> Log
        ensures { result.calls ≡ [] }
    {
        Log {}
    }

    /// These calls, and then this one.
    pub fn then(&self, _call: &Call<'_>) -> Log
        ensures { result.calls ≡ self.now.calls ++ system_call _call.now ∷ [] }
    {
        Log {}
    }
}
