//! The rows of a block, which ascend by their sources.
ghost use Rattle.std.specs.Prelude.{◌≡◌};
ghost use Rattle.te_model.specs.Certificate.{row_of};
ghost use Rattle.ratio_checker.specs.Ascending.{AscendsFrom};

use te_model::Row;

// The potentials of the source, none where it has no row.
pub fn potentials_of(rows: &[Row], source: u32) -> &[u64]
    requires { AscendsFrom (λ r. r.source) 0 rows.now }
    ensures { result.now ≡ (row_of rows.now source).potential }
{
    match rows.binary_search_by_key(&source, |row| row.source) {
        Ok(place) => rows[place].potential.as_slice(),
        Err(_) => &[],
    }
}
