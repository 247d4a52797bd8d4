//! Tables of cases, of which one that does not hold is named by its number.
use std::alloc::Global;
use std::process::Abort;

/// A row of a table.
pub trait Case {
    /// Whether what is found is what the row says.
    fn holds(&self, alloc: Global) -> bool;
}

/// Each row of a table holds.
pub fn all_hold<C: Case>(rt: &impl Abort, alloc: Global, table: &[C]) {
    for place in 0..table.len() {
        assert!(rt; table[place].holds(alloc), "row {place}");
    }
}
