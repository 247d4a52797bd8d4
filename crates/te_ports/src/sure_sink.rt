//! A sink whose writes never fail.
ghost use Rattle.std.specs.Prelude.{◌≡◌, ◌+◌, ◌-◌, ◌^◌, min, length, Ok};

use crate::{Failed, Sink};

/// Counts the bytes that it takes and keeps none. The count stands still at 2^64 - 1.
#[derive(Drop)]
pub struct SureSink {
    count: u64,
}

impl SureSink {
    ghost use Rattle.te_ports.specs.SureSink.{sure_count};

    /// A sink that has taken nothing.
    pub fn new() -> SureSink
        ensures { sure_count result ≡ 0 }
    {
        SureSink { count: 0 }
    }

    /// How many bytes were taken.
    pub fn count(&self) -> u64
        ensures { result ≡ sure_count self.now }
    {
        self.count
    }
}

impl Sink for SureSink {
    ghost use Rattle.std.specs.Prelude.{None};
    ghost use Rattle.te_ports.specs.SureSink.{sure_count};

    ghost written = { λ _. None };

    ghost faults = { λ _. 0 };

    fn put(&mut self, bytes: &[u8]) -> Result<usize, Failed>
        ensures all { result ≡ Ok (length bytes.now) }
        ensures counted { sure_count self.new ≡ min (sure_count self.old + length bytes.now) (2 ^ 64 - 1) }
    {
        self.count = self.count.saturating_add(bytes.len() as u64);
        Ok(bytes.len())
    }
}
