//! Bytes that are taken one after the other.
ghost use Rattle.std.specs.Prelude.{◌≡◌, ℕ, ◌<◌, ◌≤◌, List, length, drop, IfSome, slice_get};

/// Bytes that are taken from the front. What a cursor hands out is what its content has next as long as the content is
/// told; a cursor that fails stops telling, and hands out no byte more.
pub trait Cursor {
    /// The bytes that are left, where they are told.
    ghost rest: { Self → List ℕ };

    /// The content is told, and nothing has failed so far.
    ghost is_told: { Self → Type 0 };

    /// How many bytes can still come at most.
    ghost bound: { Self → ℕ };

    /// The next byte is at hand.
    ghost is_ready: { Self → Type 0 };

    /// The next byte, if there is one.
    fn peek(&mut self) -> Option<u8>
        ensures byte { is_told self.new → result ≡ slice_get (rest self.old) 0 }
        ensures same { is_told self.new → rest self.new ≡ rest self.old }
        ensures told { is_told self.new → is_told self.old }
        ensures ready { IfSome result (λ _. is_ready self.new) }
        ensures fewer { bound self.new ≤ bound self.old };

    /// Goes past the next byte.
    fn advance(&mut self)
        requires { is_ready self.old }
        ensures rest { is_told self.new → rest self.new ≡ drop 1 (rest self.old) }
        ensures told { is_told self.new → is_told self.old }
        ensures fewer { bound self.new < bound self.old };
}

/// Bytes in memory.
#[derive(Drop)]
pub struct Bytes<'a> {
    bytes: &'a [u8],
}

impl<'a> Bytes<'a> {
    pub fn new(bytes: &'a [u8]) -> Bytes<'a>
        ensures { result.bytes.now ≡ bytes.now }
    {
        Bytes { bytes }
    }

    /// The bytes that are left.
    pub fn left(&self) -> &'a [u8]
        ensures { result.now ≡ self.now.bytes.now }
    {
        self.bytes
    }
}

impl<'a> Cursor for Bytes<'a> {
    ghost rest = { λ s. s.bytes.now };

    ghost is_told = { λ _. Unit {0} };

    ghost bound = { λ s. length s.bytes.now };

    ghost is_ready = { λ s. 0 < length s.bytes.now };

    fn peek(&mut self) -> Option<u8> {
        self.bytes.first().copied()
    }

    fn advance(&mut self) {
        self.bytes = &self.bytes[1..];
    }
}
