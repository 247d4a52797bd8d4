//! How many bytes a file may have.
ghost use Rattle.std.specs.Prelude.{◌≡◌, ℕ, List};

/// How many bytes a file may have, which may hang on its first bytes.
pub trait Limit {
    /// How many bytes are allowed for a file that begins with these.
    ghost allowed: { Self → List ℕ → ℕ };

    /// How many bytes are allowed for a file that begins with these.
    fn allowed(&self, bytes: &[u8]) -> u64
        ensures { result ≡ allowed self.now bytes.now };
}

/// The same for every file.
impl Limit for u64 {
    ghost allowed = { λ limit _. limit };

    fn allowed(&self, _bytes: &[u8]) -> u64 {
        *self
    }
}
