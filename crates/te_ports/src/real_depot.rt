//! The files of the system as a depot. They tell no content, and count each failure.
ghost use Rattle.std.specs.Prelude.{◌≡◌, ◌≤◌, ◌<◌, ◌+◌, ◌-◌, ◌^◌, [], ◌∷◌, ◌++◌, ℕ, List, length, take, IfOk, OnOk, OnErr, None};
ghost use Rattle.std.specs.declared.result.Result.{Result};
ghost use Rattle.std.specs.Io.{ReadsAtMost};
ghost use Rattle.te_ports.specs.Ports.{Rose};
ghost use Rattle.te_ports.specs.Calls.{reads_of};
ghost use Rattle.te_ports.specs.Record.{read};
ghost use Rattle.te_ports.specs.Trying.{IsTried, IsReadAnswer, NotesRead};
ghost use Rattle.te_ports.specs.declared.system.SystemFault.{SystemFault as Fault};

use crate::disk::{Disk, SystemDisk};
use crate::system::TRIES;
use crate::{Depot, Failed, SystemFault};
use std::rt::Files;

/// Files by their paths. The faults of every name are the count of all failed reads, which stands still at 2^64 - 1.
///
/// A read that a signal interrupts is tried again, a hundred times in all.
#[derive(Drop)]
pub struct RealDepot<D: Disk + Drop> {
    disk: D,
    faults: u64,
}

impl<R: Files + Drop> RealDepot<SystemDisk<R>> {
    /// The files that the runtime reaches.
    pub fn new(files: R) -> Self
        ensures files { result.disk.files ≡ files }
        ensures nothing_open { result.disk.last ≡ None }
        ensures nothing_read { result.disk.log.calls ≡ [] }
        ensures no_fault { result.faults ≡ 0 }
    {
        RealDepot::over(SystemDisk::new(files))
    }
}

impl<D: Disk + Drop> RealDepot<D> {
    /// The files of this disk.
    pub fn over(disk: D) -> Self
        ensures disk { result.disk ≡ disk }
        ensures no_fault { result.faults ≡ 0 }
    {
        RealDepot { disk, faults: 0 }
    }
}

// Asks until no signal interrupts, a hundred times at most, and answers what the system answered last.
fn read_again<D: Disk>(
    disk: &mut D,
    name: &str,
    at: u64,
    buf: &mut [u8],
) -> Result<usize, SystemFault>
    ensures bound { ReadsAtMost result buf.new }
    ensures tried { IsTried (NotesRead D.calls name.now at) (disk.old, buf.old) result (disk.new, buf.new) }
{
    let mut answer = disk.read_once(name, at, buf);
    'tries: for _ in 1..TRIES {
        let Err(SystemFault::Interrupted) = answer else {
            break;
        };
        answer = disk.read_once(name, at, buf);
    }
    answer
}

impl<D: Disk + Drop> Depot for RealDepot<D> {
    ghost content = { λ _ _. None };

    ghost faults = { λ d _. d.faults };

    ghost gave = { λ d. reads_of (D.calls d.disk) };

    fn fetch(&mut self, name: &str, at: u64, buf: &mut [u8]) -> Result<usize, Failed>
        ensures room { IfOk result (λ n. n ≤ length buf.new) }
        ensures gave { IfOk result (λ n. 0 < length buf.new →
            reads_of (D.calls self.new.disk) ≡ reads_of (D.calls self.old.disk) ++ read name.now at (take n buf.new) ∷ []) }
        ensures no_room { length buf.new ≡ 0 → reads_of (D.calls self.new.disk) ≡ reads_of (D.calls self.old.disk) }
        ensures unread { OnErr result (reads_of (D.calls self.new.disk) ≡ reads_of (D.calls self.old.disk)) }
        ensures steady { OnOk result (self.new.faults ≡ self.old.faults) }
        ensures failed { OnErr result (Rose self.old.faults self.new.faults) }
        ensures later { self.old.faults ≤ self.new.faults }

        // The calls are on record, as many as it takes until none is interrupted and a hundred at most, and what the system answered
        // last is the answer.
        ensures answered { (answer : Result ℕ Fault) ×
            IsTried (NotesRead D.calls name.now at) (self.old.disk, buf.old) answer (self.new.disk, buf.new) ×
            IsReadAnswer answer result }
    {
        match read_again(&mut self.disk, name, at, buf) {
            Ok(count) => Ok(count),
            Err(_) => {
                self.faults = self.faults.saturating_add(1);
                Err(Failed)
            }
        }
    }
}
