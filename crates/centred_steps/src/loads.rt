//! The loads of a sweep.
ghost use Rattle.std.specs.Prelude.{◌≡◌, ℕ, ◌+◌, ◌^◌, ◌<◌, ◌≤◌, length, min, nat_lt, replicate, slice_index, slice_set};
ghost use Rattle.std.specs.List.{list_any};
ghost use Rattle.centred_steps.specs.Loads.{AreSmall};

/// The greatest load: what 2^14 pairs put on a link, each less than 2^52.
const MAX_LOAD: u128 = 1 << 66;

/// Adds the amount to the load of the link, which ends at 2^66.
pub fn add_load(loads: &mut [u128], link: usize, amount: u128)
    requires link { link < length loads.old }
    requires loads { AreSmall loads.old }
    ensures small { AreSmall loads.new }
    ensures added { loads.new ≡ slice_set loads.old link (min (slice_index loads.old link + amount) (2 ^ 66)) }
{
    loads[link] = loads[link].saturating_add(amount).min(MAX_LOAD);
}

/// Takes away every load.
pub fn clear_loads(loads: &mut [u128])
    ensures small { AreSmall loads.new }
    ensures none { loads.new ≡ replicate (length loads.old) 0 }
{
    for load in loads.iter_mut() {
        *load = 0;
    }
}

/// Whether some link has a load.
pub fn has_load(loads: &[u128]) -> bool
    ensures { result ≡ list_any (λ load. nat_lt 0 load) loads.now }
{
    loads.iter().any(|load| *load > 0)
}
