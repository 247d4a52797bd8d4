//! What the allocations of a pair guard.
ghost use Rattle.std.specs.Prelude.{◌≡◌, ℕ, ◌-◌, ◌*◌, ◌^◌, ◌<◌, ◌≤◌, length, slice_index};
ghost use Rattle.te_model.specs.declared.limits.TheConstants.{FORMAT_2};
ghost use Rattle.te_model.specs.Counting.{greatest_below};
ghost use Rattle.fault_rates.specs.Tables.{AreSimplePaths, paths_on, rank, sum_of_least};

use crate::sums::paths_on_links;
use te_model::PathShare;

// How many of the keys come before the one at the place, by the lesser key and then by the place.
fn rank(keys: &[u64], place: usize) -> u64
    requires { place < length keys.now }
    ensures { result ≡ rank keys.now place }
{
    let key = keys[place];
    let mut before = 0;
    for j in 0..keys.len() {
        if keys[j] < key || keys[j] == key && j < place {
            before += 1;
        }
    }
    before
}

// The sum of the least keys, of so many.
fn sum_of_least(keys: &[u64], few: u64) -> u64
    requires count { length keys.now ≤ 32 }
    requires small { (i : ℕ) → slice_index keys.now i ≤ 2 ^ 32 }
    ensures { result ≡ sum_of_least keys.now few }
{
    let mut sum = 0;
    for i in 0..keys.len() {
        if rank(keys, i) < few {
            sum += keys[i];
        }
    }
    sum
}

// The greatest of the first numbers, of so many.
fn greatest(numbers: &[u64], count: usize) -> u64
    requires { count ≤ length numbers.now }
    ensures { result ≡ greatest_below count (slice_index numbers.now) }
{
    let mut most = 0;
    for e in 0..count {
        most = most.max(numbers[e]);
    }
    most
}

// The greatest number of the paths that hold one of the links.
fn most_on_a_link(paths: &[PathShare], links: usize) -> u64
    requires links { links ≤ FORMAT_2.links }
    requires few { length paths.now ≤ 32 }
    requires paths { AreSimplePaths links paths.now }
    ensures most { result ≡ greatest_below links (paths_on paths.now) }
    ensures small { result ≤ length paths.now }
{
    let counts = paths_on_links(paths);
    greatest(&counts, links)
}

// How many of the paths are left at least where so many links fail.
pub(crate) fn paths_left(paths: &[PathShare], links: usize, failures: u32) -> u64
    requires links { links ≤ FORMAT_2.links }
    requires few { length paths.now ≤ 32 }
    requires paths { AreSimplePaths links paths.now }
    ensures { result ≡ length paths.now - failures * greatest_below links (paths_on paths.now) }
{
    let lost = u64::from(failures) * most_on_a_link(paths, links);
    (paths.len() as u64).saturating_sub(lost)
}

// The sum of the least allocations of a pair, of as many as paths are left at least where links fail.
pub(crate) fn guard(paths: &[PathShare], links: usize, allocation: &[u64], failures: u32) -> u64
    requires links { links ≤ FORMAT_2.links }
    requires few { length paths.now ≤ 32 }
    requires paths { AreSimplePaths links paths.now }
    requires count { length allocation.now ≡ length paths.now }
    requires small { (i : ℕ) → slice_index allocation.now i ≤ 2 ^ 32 }
    ensures { result ≡ sum_of_least allocation.now (length paths.now - failures * greatest_below links (paths_on paths.now)) }
{
    sum_of_least(allocation, paths_left(paths, links, failures))
}
