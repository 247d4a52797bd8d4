//! The shares of a pair on all links at once.
ghost use Rattle.std.specs.Prelude.{◌≡◌, ℕ, ◌+◌, ◌^◌, ◌<◌, length, slice_index, sum_by, All, IsTrue};
ghost use Rattle.te_model.specs.declared.limits.TheConstants.{FORMAT_2};
ghost use Rattle.te_model.specs.Path.{amount_on, is_distinct, weight_on};
ghost use Rattle.ratio_checker.specs.Checked.{IsSimplePath};

use te_model::{FORMAT_2, PathShare};

/// How many links a network has at most.
pub const MOST: usize = FORMAT_2.links as usize;

// Adds the weight of a path to the share on each of its links.
fn add_weight(shares: &mut [u64], links: &[u32], weight: u64)
    requires within { All (λ h. h < length shares.old) links.now }
    requires once { IsTrue (is_distinct links.now) }
    requires room { (h : ℕ) → slice_index shares.old h + weight < 2 ^ 64 }
    ensures length { length shares.new ≡ length shares.old }
    ensures added { (h : ℕ) → slice_index shares.new h ≡ slice_index shares.old h + amount_on links.now weight h }
{
    for h in links {
        shares[*h as usize] += weight;
    }
}

/// What a pair with these paths puts on each link: the weights of those paths that hold it, in millionths. It takes no memory.
pub fn shares_by_link(paths: &[PathShare]) -> [u64; MOST]
    requires paths { All IsSimplePath paths.now }
    requires weights { sum_by (λ s. s.weight) paths.now < 2 ^ 64 }
    ensures count { length result ≡ FORMAT_2.links }
    ensures shares { (e : ℕ) → slice_index result e ≡ weight_on paths.now e }
{
    let mut shares = [0; MOST];
    for path in paths {
        add_weight(&mut shares, path.links.as_slice(), path.weight);
    }
    shares
}
