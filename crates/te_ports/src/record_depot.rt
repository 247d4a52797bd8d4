//! A depot that tells nothing, and writes down what its reads gave.
ghost use Rattle.std.specs.Prelude.{◌≡◌, ◌≤◌, ◌<◌, ◌+◌, ◌-◌, ◌^◌, min, [], ◌∷◌, ◌++◌, ℕ, List, length, take, IfOk, OnOk, OnErr};
ghost use Rattle.te_ports.specs.Ports.{Rose};
ghost use Rattle.te_ports.specs.Record.{read};
ghost use Rattle.te_ports.specs.RecordDepot.{FailsBy, written_down};
ghost use Rattle.te_ports.specs.Shown.{shown_by};

use crate::{Depot, Failed};
use std::alloc::{AllocError, Global};

/// A read: the file's name, the place, and the bytes that it gave there.
#[derive(Drop)]
pub struct Entry {
    pub name: String,
    pub at: u64,
    pub bytes: Vec<u8>,
}

/// The files of another depot, and a record of all reads. A read into no room is not written down, and one that cannot
/// be written down fails. The faults of every name are the count of all failed reads, which stands still at 2^64 - 1.
#[derive(Drop)]
pub struct RecordDepot<D: Depot + Drop> {
    alloc: Global,
    inner: D,
    log: Vec<Entry>,
    faults: u64,
}

impl<D: Depot + Drop> RecordDepot<D> {
    /// The files of this depot, of which nothing was read yet.
    pub fn new(alloc: Global, inner: D) -> Self
        ensures inner { result.inner ≡ inner }
        ensures empty { result.log.items ≡ [] }
        ensures no_fault { result.faults ≡ 0 }
    {
        RecordDepot {
            alloc,
            inner,
            log: Vec::new(alloc),
            faults: 0,
        }
    }

    /// The reads that are on record, in their order.
    pub fn reads(&self) -> &[Entry]
        ensures { result.now ≡ self.now.log.items }
    {
        &self.log
    }
}

// Writes a read down. `AllocError`, which leaves the log as it was, where memory is short.
fn note(
    log: &mut Vec<Entry>,
    alloc: Global,
    name: &str,
    at: u64,
    bytes: &[u8],
) -> Result<(), AllocError>
    ensures noted { OnOk result (written_down log.new.items ≡ written_down log.old.items ++ read name.now at bytes.now ∷ []) }
    ensures err { OnErr result (log.new.items ≡ log.old.items) }
{
    let entry = Entry {
        name: String::from_str(alloc, name)?,
        at,
        bytes: bytes.to_vec(alloc)?,
    };
    log.push(entry)?;
    Ok(())
}

impl<D: Depot + Drop> Depot for RecordDepot<D> {
    ghost use Rattle.std.specs.Prelude.{None};

    ghost content = { λ _ _. None };

    ghost faults = { λ d _. d.faults };

    ghost gave = { λ d. written_down d.log.items };

    fn fetch(&mut self, name: &str, at: u64, buf: &mut [u8]) -> Result<usize, Failed>
        ensures room { IfOk result (λ n. n ≤ length buf.new) }
        ensures gave { IfOk result (λ n. 0 < length buf.new →
            written_down self.new.log.items ≡ written_down self.old.log.items ++ read name.now at (take n buf.new) ∷ []) }
        ensures steady { OnOk result (self.new.faults ≡ self.old.faults) }
        ensures failed { OnErr result (Rose self.old.faults self.new.faults) }
        ensures later { self.old.faults ≤ self.new.faults }

        // What the other depot gave is written down, and nothing else is.
        ensures given { IfOk result (λ n. 0 < length buf.new →
            D.gave self.new.inner ≡ D.gave self.old.inner ++ read name.now at (take n buf.new) ∷ []) }
        ensures no_room { length buf.new ≡ 0 → self.new.log.items ≡ self.old.log.items }
        ensures unread { OnErr result (self.new.log.items ≡ self.old.log.items) }
        ensures counted { OnErr result (self.new.faults ≡ min (self.old.faults + 1) (2 ^ 64 - 1)) }

        // It fails only where the read of the other depot did, or memory was short to write down what that gave.
        ensures cause { OnErr result (FailsBy name.now at (shown_by D.content D.gave D.faults self.old.inner)
            (shown_by D.content D.gave D.faults self.new.inner)) }
        ensures inner { D.content self.new.inner ≡ D.content self.old.inner }
    {
        if let Ok(count) = self.inner.fetch(name, at, buf) {
            if buf.is_empty() {
                return Ok(count);
            }
            if note(&mut self.log, self.alloc, name, at, &buf[..count]).is_ok() {
                return Ok(count);
            }
        }
        self.faults = self.faults.saturating_add(1);
        Err(Failed)
    }
}
