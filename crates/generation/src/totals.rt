//! The sums over the rows of a series, in units of demand.
ghost use Rattle.std.specs.Prelude.{◌≡◌, ◌≤◌, length, sum_by};

use series_simulation::StepRow;

/// The demands of all pairs in all steps.
pub fn offered_in(rows: &[StepRow]) -> u128
    requires { length rows.now ≤ 1024 }
    ensures { result ≡ sum_by (λ row. row.result.offered) rows.now }
{
    let mut total = 0u128;
    for row in rows {
        total += u128::from(row.result.offered);
    }
    total
}

/// What arrived of them.
pub fn delivered_in(rows: &[StepRow]) -> u128
    requires { length rows.now ≤ 1024 }
    ensures { result ≡ sum_by (λ row. row.result.delivered) rows.now }
{
    let mut total = 0u128;
    for row in rows {
        total += u128::from(row.result.delivered);
    }
    total
}
