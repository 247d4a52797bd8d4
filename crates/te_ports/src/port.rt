//! What a depot and a sink promise.
ghost use Rattle.std.specs.Prelude.{◌≡◌, ◌≤◌, ◌<◌, ℕ, List, [], ◌∷◌, ◌++◌, length, take, drop, IfOk, OnOk, OnErr};
ghost use Rattle.std.specs.declared.option.Option.{Option};
ghost use Rattle.std.specs.Io.KnownBytes.{append_known};
ghost use Rattle.te_ports.specs.Ports.{Rose, Told};
ghost use Rattle.te_ports.specs.Record.{Read, read};

/// A read or a write that failed.
#[derive(Clone, Copy, Debug, PartialEq, Eq)]
pub struct Failed;

/// Files by their names.
pub trait Depot {
    /// The bytes of the file of a name, where the depot tells them.
    ghost content: { Self → List ℕ → Option (List ℕ) };

    /// How often reads of a name have failed.
    ghost faults: { Self → List ℕ → ℕ };

    /// The reads that had room for a byte and did not fail, in their order, and the bytes that each gave.
    ghost gave: { Self → List Read };

    /// Reads bytes of the file of a name from the place `at` on, and answers how many.
    ///
    /// After `Failed` the buffer may hold anything, and the faults of the name rose or stand at 2^64 - 1.
    fn fetch(&mut self, name: &str, at: u64, buf: &mut [u8]) -> Result<usize, Failed>
        ensures content { content self.new ≡ content self.old }
        ensures room { IfOk result (λ n. n ≤ length buf.new) }
        ensures bytes { IfOk result (λ n. Told (content self.old name.now) (λ told.
            take n buf.new ≡ take n (drop at told))) }

        // Nothing is read only at the end of the file, or into an empty buffer.
        ensures end { IfOk result (λ n. Told (content self.old name.now) (λ told.
            n ≡ 0 → 0 < length buf.new → length told ≤ at)) }

        // The read is on record behind those before it, and nothing else is.
        ensures gave { IfOk result (λ n. 0 < length buf.new →
            gave self.new ≡ gave self.old ++ read name.now at (take n buf.new) ∷ []) }
        ensures no_room { length buf.new ≡ 0 → gave self.new ≡ gave self.old }
        ensures unread { OnErr result (gave self.new ≡ gave self.old) }
        ensures steady { OnOk result (faults self.new ≡ faults self.old) }
        ensures failed { OnErr result (Rose (faults self.old name.now) (faults self.new name.now)) }
        ensures later { (other : List ℕ) → faults self.old other ≤ faults self.new other };
}

/// What takes bytes, one after another.
pub trait Sink {
    /// The bytes that were taken, where the sink tells them.
    ghost written: { Self → Option (List ℕ) };

    /// How often writes have failed.
    ghost faults: { Self → ℕ };

    /// Appends the first bytes, at least one unless there is none, and answers how many.
    ///
    /// After `Failed` nothing was appended, and the faults rose or stand at 2^64 - 1.
    fn put(&mut self, bytes: &[u8]) -> Result<usize, Failed>
        ensures bound { IfOk result (λ n. n ≤ length bytes.now) }
        ensures progress { IfOk result (λ n. 0 < length bytes.now → 1 ≤ n) }
        ensures appended { IfOk result (λ n.
            written self.new ≡ append_known (written self.old) (take n bytes.now)) }
        ensures unchanged { OnErr result (written self.new ≡ written self.old) }
        ensures steady { OnOk result (faults self.new ≡ faults self.old) }
        ensures failed { OnErr result (Rose (faults self.old) (faults self.new)) }
        ensures later { faults self.old ≤ faults self.new };
}
