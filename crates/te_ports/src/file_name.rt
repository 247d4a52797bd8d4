//! The name of a file that is kept open.
ghost use Rattle.std.specs.Prelude.{◌≡◌, ◌≤◌, ◌<◌, length, IfSome, IfNone, IsTrue, ◌↔◌};

// How long a name is at most. The system opens none that is longer.
const LONGEST: usize = 4096;

/// The name of a file, which takes no memory of an allocator.
#[derive(Drop)]
pub struct FileName {
    bytes: [u8; LONGEST],
    length: usize,
    ghost fits: { length ≤ 4096 },
}

impl FileName {
    ghost use Rattle.te_ports.specs.OpenFiles.{name_bytes};

    /// This name, or none where it is longer than any name that the system opens.
    pub fn new(name: &str) -> Option<FileName>
        ensures name { IfSome result (λ kept. name_bytes kept ≡ name.now) }
        ensures none { IfNone result (4096 < length name.now) }
    {
        let length = name.len();
        if length > LONGEST {
            return None;
        }
        let mut bytes = [0; LONGEST];
        bytes[..length].copy_from_slice(name.as_bytes());
        Some(FileName { bytes, length })
    }

    /// Whether it is this name.
    pub fn is(&self, name: &str) -> bool
        ensures { IsTrue result ↔ (name_bytes self.now ≡ name.now) }
    {
        &self.bytes[..self.length] == name.as_bytes()
    }
}
