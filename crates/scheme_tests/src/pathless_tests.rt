//! Pairs without a path: the first of them is named by each scheme that searches over paths that it was given.
ghost use Rattle.std.specs.Prelude.{◌≡◌};
ghost use Rattle.sample_networks.specs.Networks.{parallel_links};

use k_paths::Ksp;
use mcf_lengths::Mcf;
use racke_mix::Racke;
use sample_networks::{pairs, parallel_links};
use scheme::{Scheme, SchemeFault};
use semi_oblivious::Semi;
use std::alloc::{AllocError, Global};
use te_model::Network;

/// The place of the first pair without a path by the scheme, of which the second and the third lead back.
fn first_pathless<S: Scheme>(
    alloc: Global,
    scheme: &S,
    net: &Network,
) -> Result<Option<u32>, AllocError>
    requires { net.now ≡ parallel_links }
{
    let pairs = pairs(alloc, &[(0, 1), (1, 0), (1, 0)])?;
    match scheme.prepare(alloc, net, &pairs) {
        Err(SchemeFault::NoPath(place)) => Ok(Some(place)),
        _ => Ok(None),
    }
}

/// Whether the scheme names the first pair without a path.
fn names_pathless_pair<S: Scheme>(alloc: Global, scheme: &S) -> Result<bool, AllocError> {
    let net = parallel_links(alloc)?;
    Ok(first_pathless(alloc, scheme, &net)? == Some(1))
}

#[test]
fn first_pair_without_path_is_named(rt: HostRuntime) {
    let alloc = rt.alloc();
    let over_least_paths = Semi {
        base: Ksp { k: 2 },
        budget: 2,
    };
    let over_trees = Semi {
        base: Racke { trees: 2, seed: 0 },
        budget: 2,
    };
    assert!(rt; matches!(names_pathless_pair(alloc, &Mcf), Ok(true)));
    assert!(rt; matches!(names_pathless_pair(alloc, &over_least_paths), Ok(true)));
    assert!(rt; matches!(names_pathless_pair(alloc, &over_trees), Ok(true)));
}
