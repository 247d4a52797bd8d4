//! Sums of lengths along links.
ghost use Rattle.std.specs.Prelude.{◌≡◌, ◌*◌, ◌^◌, ◌<◌, ◌≤◌, All, length};
ghost use Rattle.shortest_path.specs.Least.{is_sum};
ghost use Rattle.shortest_path.specs.Paths.{sum_along};

/// The sum of the lengths of the links, each as often as it is listed.
///
/// `lengths` has one length for each link of the network.
pub fn length_along(lengths: &[u64], links: &[u32]) -> u128
    requires links { All (λ h. h < length lengths.now) links.now }
    requires limit { All (λ l. l ≤ 2 ^ 28) lengths.now }
    ensures sum { result ≡ sum_along lengths.now links.now }
    ensures limit { result ≤ length links.now * 2 ^ 28 }
{
    let mut total = 0;
    for link in links {
        total += u128::from(lengths[*link as usize]);
    }
    total
}

/// Whether the first distance is the second and the length.
pub fn is_sum(from: Option<u64>, to: Option<u64>, length: u64) -> bool
    ensures { result ≡ is_sum from to length }
{
    match (from, to) {
        (Some(x), Some(y)) => y <= x && x - y == length,
        _ => false,
    }
}
