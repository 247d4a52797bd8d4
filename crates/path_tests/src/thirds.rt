//! Three paths with a third each.

/// Three paths of two links with a third each, of which the first has the unit that is left over.
pub const THIRDS: &[(&[u32], u64)] = &[(&[0, 3], 333_334), (&[1, 4], 333_333), (&[2, 5], 333_333)];
