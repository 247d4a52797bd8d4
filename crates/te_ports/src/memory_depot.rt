//! A depot in memory whose reads can be made to fail.
ghost use Rattle.std.specs.Prelude.{◌≡◌, ◌≢◌, ◌≤◌, ◌<◌, ◌+◌, ◌-◌, ◌^◌, ◌↔◌, ◌⊎◌, min, Contains, [], ◌∷◌, ◌++◌, ℕ, List, length, take, drop, IfOk, OnOk, OnErr, IsErr, Some, None};
ghost use Rattle.te_ports.specs.Ports.{Rose, Told};
ghost use Rattle.te_ports.specs.Calls.{system_call, reads};
ghost use Rattle.te_ports.specs.Record.{read};

use crate::{Call, Depot, Failed, Log};
use std::alloc::{AllocError, Global};
use std::collections::BTreeMap;

/// Files in memory, which are given in pieces. Chosen calls fail, and so does each call for a name that was not added.
#[derive(Drop)]
pub struct MemDepot {
    alloc: Global,
    files: BTreeMap<String, Vec<u8>>,
    failing: Vec<u64>,
    piece: usize,
    calls: u64,
    faults: u64,
    log: Log,
    ghost gives: { 1 ≤ piece },
}

impl MemDepot {
    ghost use Rattle.te_ports.specs.MemDepot.{depot_content, depot_faults, depot_gave, depot_calls, depot_piece, depot_failing};

    /// An empty depot whose fetches give at most `piece` bytes each. `AllocError` where memory is short.
    pub fn new(alloc: Global, piece: usize) -> Result<MemDepot, AllocError>
        requires { 1 ≤ piece }
        ensures empty { IfOk result (λ d. (name : List ℕ) → depot_content d name ≡ None) }
        ensures piece { IfOk result (λ d. depot_piece d ≡ piece) }
        ensures started { IfOk result (λ d. depot_calls d ≡ 0) }
        ensures nothing_fails { IfOk result (λ d. depot_failing d ≡ []) }
        ensures no_fault { IfOk result (λ d. (name : List ℕ) → depot_faults d name ≡ 0) }
        ensures nothing_read { IfOk result (λ d. depot_gave d ≡ []) }
    {
        Ok(MemDepot {
            alloc,
            files: BTreeMap::new(alloc),
            failing: Vec::new(alloc),
            piece,
            calls: 0,
            faults: 0,
            log: Log::new(),
        })
    }

    /// Sets the bytes of a name, in place of those that it had. `AllocError`, which leaves the files as they were, where
    /// memory is short.
    pub fn add(&mut self, name: &str, bytes: &[u8]) -> Result<(), AllocError>
        ensures added { OnOk result (depot_content self.new name.now ≡ Some bytes.now) }
        ensures others { (other : List ℕ) → other ≢ name.now → depot_content self.new other ≡ depot_content self.old other }
        ensures err { OnErr result ((other : List ℕ) → depot_content self.new other ≡ depot_content self.old other) }
        ensures piece { depot_piece self.new ≡ depot_piece self.old }
        ensures calls { depot_calls self.new ≡ depot_calls self.old }
        ensures failing { depot_failing self.new ≡ depot_failing self.old }
        ensures faults { depot_faults self.new ≡ depot_faults self.old }
        ensures gave { depot_gave self.new ≡ depot_gave self.old }
    {
        let key = String::from_str(self.alloc, name)?;
        let copy = bytes.to_vec(self.alloc)?;
        self.files.insert(key, copy)?;
        Ok(())
    }

    /// Makes the call of that number fail, the first being number 0. `AllocError`, which leaves the depot as it was, where
    /// memory is short.
    pub fn fail_at(&mut self, call: u64) -> Result<(), AllocError>
        ensures ok { OnOk result (depot_failing self.new ≡ depot_failing self.old ++ call ∷ []) }
        ensures err { OnErr result (depot_failing self.new ≡ depot_failing self.old) }
        ensures content { depot_content self.new ≡ depot_content self.old }
        ensures piece { depot_piece self.new ≡ depot_piece self.old }
        ensures calls { depot_calls self.new ≡ depot_calls self.old }
        ensures faults { depot_faults self.new ≡ depot_faults self.old }
        ensures gave { depot_gave self.new ≡ depot_gave self.old }
    {
        self.failing.push(call)?;
        Ok(())
    }
}

// Copies the bytes from a place on, as many as there are, as have room and as a piece has.
pub(crate) fn copy_piece(bytes: &[u8], at: u64, piece: usize, buf: &mut [u8]) -> usize
    ensures count { result ≡ min (min (length bytes.now - at) (length buf.new)) piece }
    ensures copied { take result buf.new ≡ take result (drop at bytes.now) }
{
    if at >= bytes.len() as u64 {
        return 0;
    }
    let rest = &bytes[at as usize..];
    let count = rest.len().min(buf.len()).min(piece);
    buf[..count].copy_from_slice(&rest[..count]);
    count
}

// A read that put so many bytes into a buffer.
pub(crate) fn read_of<'a>(name: &'a str, at: u64, buf: &'a [u8], count: usize) -> Call<'a>
    requires { count ≤ length buf.now }
    ensures { system_call result ≡ reads name.now at (length buf.now) (Ok (take count buf.now)) }
{
    Call::Read {
        name,
        at,
        room: buf.len(),
        answer: Ok(&buf[..count]),
    }
}

impl Depot for MemDepot {
    ghost use Rattle.te_ports.specs.MemDepot.{depot_content, depot_faults, depot_gave, depot_calls, depot_piece, depot_failing};

    ghost content = { depot_content };

    ghost faults = { depot_faults };

    ghost gave = { depot_gave };

    fn fetch(&mut self, name: &str, at: u64, buf: &mut [u8]) -> Result<usize, Failed>
        ensures content { depot_content self.new ≡ depot_content self.old }
        ensures room { IfOk result (λ n. n ≤ length buf.new) }
        ensures bytes { IfOk result (λ n. Told (depot_content self.old name.now) (λ told.
            take n buf.new ≡ take n (drop at told))) }
        ensures end { IfOk result (λ n. Told (depot_content self.old name.now) (λ told.
            n ≡ 0 → 0 < length buf.new → length told ≤ at)) }
        ensures gave { IfOk result (λ n. 0 < length buf.new →
            depot_gave self.new ≡ depot_gave self.old ++ read name.now at (take n buf.new) ∷ []) }
        ensures no_room { length buf.new ≡ 0 → depot_gave self.new ≡ depot_gave self.old }
        ensures unread { OnErr result (depot_gave self.new ≡ depot_gave self.old) }
        ensures steady { OnOk result (depot_faults self.new ≡ depot_faults self.old) }
        ensures failed { OnErr result (Rose (depot_faults self.old name.now) (depot_faults self.new name.now)) }
        ensures later { (other : List ℕ) → depot_faults self.old other ≤ depot_faults self.new other }

        // It fails exactly where the call was chosen to, or the name was not added.
        ensures cause { IsErr result ↔ (Contains (depot_failing self.old) (depot_calls self.old)
            ⊎ (depot_content self.old name.now ≡ None)) }
        ensures counted { OnErr result ((other : List ℕ) →
            depot_faults self.new other ≡ min (depot_faults self.old other + 1) (2 ^ 64 - 1)) }
        ensures gives { IfOk result (λ n. Told (depot_content self.old name.now) (λ told.
            n ≡ min (min (length told - at) (length buf.new)) (depot_piece self.old))) }

        ensures calls { depot_calls self.new ≡ min (depot_calls self.old + 1) (2 ^ 64 - 1) }
        ensures failing { depot_failing self.new ≡ depot_failing self.old }
        ensures piece { depot_piece self.new ≡ depot_piece self.old }
    {
        let fails = self.failing.contains(&self.calls);
        self.calls = self.calls.saturating_add(1);
        if fails {
            self.faults = self.faults.saturating_add(1);
            return Err(Failed);
        }
        match self.files.get(name) {
            Some(bytes) => {
                let count = copy_piece(bytes, at, self.piece, buf);
                self.log = self.log.then(&read_of(name, at, buf, count));
                Ok(count)
            }
            None => {
                self.faults = self.faults.saturating_add(1);
                Err(Failed)
            }
        }
    }
}
