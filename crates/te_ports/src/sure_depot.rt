//! A depot whose reads never fail.
ghost use Rattle.std.specs.Prelude.{◌≡◌, ◌≢◌, ◌≤◌, ◌<◌, ◌-◌, min, [], ◌∷◌, ◌++◌, ℕ, List, length, take, drop, IfOk, OnOk, OnErr, IsOk};
ghost use Rattle.te_ports.specs.Ports.{Rose, Told};
ghost use Rattle.te_ports.specs.Record.{read};

use crate::memory_depot::{copy_piece, read_of};
use crate::{Depot, Failed, Log};
use std::alloc::{AllocError, Global};
use std::collections::BTreeMap;

/// Files in memory. A name that was not added has no bytes.
#[derive(Drop)]
pub struct SureDepot {
    alloc: Global,
    files: BTreeMap<String, Vec<u8>>,
    log: Log,
}

impl SureDepot {
    ghost use Rattle.te_ports.specs.SureDepot.{sure_content, sure_gave};

    /// A depot in which every file is empty. `AllocError` where memory is short.
    pub fn new(alloc: Global) -> Result<SureDepot, AllocError>
        ensures empty { IfOk result (λ d. (name : List ℕ) → sure_content d name ≡ []) }
        ensures nothing_read { IfOk result (λ d. sure_gave d ≡ []) }
    {
        Ok(SureDepot {
            alloc,
            files: BTreeMap::new(alloc),
            log: Log::new(),
        })
    }

    /// Sets the bytes of a name, in place of those that it had. `AllocError`, which leaves the files as they were, where
    /// memory is short.
    pub fn add(&mut self, name: &str, bytes: &[u8]) -> Result<(), AllocError>
        ensures added { OnOk result (sure_content self.new name.now ≡ bytes.now) }
        ensures others { (other : List ℕ) → other ≢ name.now → sure_content self.new other ≡ sure_content self.old other }
        ensures err { OnErr result ((other : List ℕ) → sure_content self.new other ≡ sure_content self.old other) }
        ensures gave { sure_gave self.new ≡ sure_gave self.old }
    {
        let key = String::from_str(self.alloc, name)?;
        let copy = bytes.to_vec(self.alloc)?;
        self.files.insert(key, copy)?;
        Ok(())
    }
}

impl Depot for SureDepot {
    ghost use Rattle.te_ports.specs.SureDepot.{sure_content, sure_told, sure_gave};

    ghost content = { sure_told };

    ghost faults = { λ _ _. 0 };

    ghost gave = { sure_gave };

    fn fetch(&mut self, name: &str, at: u64, buf: &mut [u8]) -> Result<usize, Failed>
        ensures content { sure_told self.new ≡ sure_told self.old }
        ensures room { IfOk result (λ n. n ≤ length buf.new) }
        ensures bytes { IfOk result (λ n. Told (sure_told self.old name.now) (λ told.
            take n buf.new ≡ take n (drop at told))) }
        ensures end { IfOk result (λ n. Told (sure_told self.old name.now) (λ told.
            n ≡ 0 → 0 < length buf.new → length told ≤ at)) }
        ensures gave { IfOk result (λ n. 0 < length buf.new →
            sure_gave self.new ≡ sure_gave self.old ++ read name.now at (take n buf.new) ∷ []) }
        ensures no_room { length buf.new ≡ 0 → sure_gave self.new ≡ sure_gave self.old }
        ensures failed { OnErr result (Rose 0 0) }
        ensures never_fails { IsOk result }
        ensures gives { IfOk result (λ n. n ≡ min (length (sure_content self.old name.now) - at) (length buf.new)) }
    {
        let count = match self.files.get(name) {
            Some(bytes) => copy_piece(bytes, at, usize::MAX, buf),
            None => 0,
        };
        self.log = self.log.then(&read_of(name, at, buf, count));
        Ok(count)
    }
}
