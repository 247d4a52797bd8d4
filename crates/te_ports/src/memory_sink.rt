//! A sink in memory whose writes can be made to fail.
ghost use Rattle.std.specs.Prelude.{◌≡◌, ◌≤◌, ◌<◌, ◌+◌, ◌-◌, ◌^◌, ◌↔◌, ◌⊎◌, min, Contains, IsErr, [], ◌∷◌, ◌++◌, length, take, IfOk, OnOk, OnErr, Some, vec_capacity};
ghost use Rattle.te_ports.specs.Ports.{Rose};

use crate::{Failed, Sink};
use std::alloc::{AllocError, Global};

/// Bytes in memory, with room for so many, which are taken in pieces. Chosen calls fail.
#[derive(Drop)]
pub struct MemSink {
    bytes: Vec<u8>,
    room: usize,
    failing: Vec<u64>,
    piece: usize,
    calls: u64,
    faults: u64,
    ghost takes: { 1 ≤ piece },
    ghost has_room: { room ≤ vec_capacity bytes },
}

impl MemSink {
    ghost use Rattle.te_ports.specs.MemSink.{sink_bytes, sink_room, sink_faults, sink_calls, sink_piece, sink_failing};

    /// An empty sink with room for `room` bytes, which takes at most `piece` bytes a call. It takes all its memory
    /// here; `AllocError` where that is short.
    pub fn new(alloc: Global, room: usize, piece: usize) -> Result<MemSink, AllocError>
        requires { 1 ≤ piece }
        ensures empty { IfOk result (λ s. sink_bytes s ≡ []) }
        ensures room { IfOk result (λ s. sink_room s ≡ room) }
        ensures piece { IfOk result (λ s. sink_piece s ≡ piece) }
        ensures started { IfOk result (λ s. sink_calls s ≡ 0) }
        ensures nothing_fails { IfOk result (λ s. sink_failing s ≡ []) }
        ensures no_fault { IfOk result (λ s. sink_faults s ≡ 0) }
    {
        Ok(MemSink {
            bytes: Vec::with_capacity(alloc, room)?,
            room,
            failing: Vec::new(alloc),
            piece,
            calls: 0,
            faults: 0,
        })
    }

    /// The bytes that were taken.
    pub fn bytes(&self) -> &[u8]
        ensures { result.now ≡ sink_bytes self.now }
    {
        &self.bytes
    }

    /// Makes the call of that number fail, the first being number 0. `AllocError`, which leaves the sink as it was, where
    /// memory is short.
    pub fn fail_at(&mut self, call: u64) -> Result<(), AllocError>
        ensures ok { OnOk result (sink_failing self.new ≡ sink_failing self.old ++ call ∷ []) }
        ensures err { OnErr result (sink_failing self.new ≡ sink_failing self.old) }
        ensures bytes { sink_bytes self.new ≡ sink_bytes self.old }
        ensures room { sink_room self.new ≡ sink_room self.old }
        ensures piece { sink_piece self.new ≡ sink_piece self.old }
        ensures calls { sink_calls self.new ≡ sink_calls self.old }
        ensures faults { sink_faults self.new ≡ sink_faults self.old }
    {
        self.failing.push(call)?;
        Ok(())
    }
}

impl Sink for MemSink {
    ghost use Rattle.te_ports.specs.MemSink.{sink_bytes, sink_room, sink_faults, sink_calls, sink_piece, sink_failing};

    ghost written = { λ s. Some (sink_bytes s) };

    ghost faults = { sink_faults };

    fn put(&mut self, bytes: &[u8]) -> Result<usize, Failed>
        ensures bound { IfOk result (λ n. n ≤ length bytes.now) }
        ensures progress { IfOk result (λ n. 0 < length bytes.now → 1 ≤ n) }
        ensures appended { IfOk result (λ n. sink_bytes self.new ≡ sink_bytes self.old ++ take n bytes.now) }
        ensures unchanged { OnErr result (sink_bytes self.new ≡ sink_bytes self.old) }
        ensures steady { OnOk result (sink_faults self.new ≡ sink_faults self.old) }
        ensures failed { OnErr result (Rose (sink_faults self.old) (sink_faults self.new)) }
        ensures later { sink_faults self.old ≤ sink_faults self.new }

        // It fails exactly where the call was chosen to, or there are bytes and no room is left.
        ensures cause { IsErr result ↔ (Contains (sink_failing self.old) (sink_calls self.old)
            ⊎ ((0 < length bytes.now) × (sink_room self.old ≤ length (sink_bytes self.old)))) }
        ensures counted { OnErr result (sink_faults self.new ≡ min (sink_faults self.old + 1) (2 ^ 64 - 1)) }
        ensures takes { IfOk result (λ n. n ≡
            min (min (length bytes.now) (sink_piece self.old)) (sink_room self.old - length (sink_bytes self.old))) }

        ensures calls { sink_calls self.new ≡ min (sink_calls self.old + 1) (2 ^ 64 - 1) }
        ensures failing { sink_failing self.new ≡ sink_failing self.old }
        ensures piece { sink_piece self.new ≡ sink_piece self.old }
        ensures room { sink_room self.new ≡ sink_room self.old }
    {
        let fails = self.failing.contains(&self.calls);
        self.calls = self.calls.saturating_add(1);
        if fails {
            self.faults = self.faults.saturating_add(1);
            return Err(Failed);
        }
        let left = self.room.saturating_sub(self.bytes.len());
        if left == 0 && !bytes.is_empty() {
            self.faults = self.faults.saturating_add(1);
            return Err(Failed);
        }
        let count = bytes.len().min(self.piece).min(left);
        self.bytes.extend_from_slice(&bytes[..count]).unwrap();
        Ok(count)
    }
}
