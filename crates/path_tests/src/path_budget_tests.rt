//! The heaviest paths of a pair, where it has more than it may keep.
use path_budget::*;
use routing::Routing;
use sample_networks::{are_routes, weighted_routes};
use std::alloc::{AllocError, Global};

/// Three links in parallel.
fn three_links(alloc: Global) -> Result<Routing, AllocError> {
    let routes = weighted_routes(
        alloc,
        &[(0, 1, &[(&[0], 500_000), (&[1], 200_000), (&[2], 300_000)])],
    )?;
    Ok(Routing { routes })
}

/// Whether the first and the third path stay, where two may be kept.
fn heaviest_two_stay(alloc: Global, routing: &Routing) -> bool {
    match trim(alloc, routing, 2) {
        Ok(trimmed) => are_routes(
            trimmed.routes.as_slice(),
            &[(0, 1, &[(&[0], 625_000), (&[2], 375_000)])],
        ),
        Err(_) => false,
    }
}

fn heaviest_two_of_three_stay(alloc: Global) -> bool {
    match three_links(alloc) {
        Ok(routing) => heaviest_two_stay(alloc, &routing),
        Err(_) => false,
    }
}

#[test]
fn the_heaviest_two_of_three_paths_stay(rt: HostRuntime) {
    assert!(rt; heaviest_two_of_three_stay(rt.alloc()));
}
