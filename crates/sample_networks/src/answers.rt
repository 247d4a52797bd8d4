//! Whether the routes that a test finds are those that it expects.
use crate::literals::WeightedPath;
use te_model::{PairRoutes, PathShare};

/// Whether these are the paths, each with its weight.
pub fn are_paths(paths: &[PathShare], expected: &[WeightedPath]) -> bool {
    if paths.len() != expected.len() {
        return false;
    }
    for place in 0..paths.len() {
        let (links, weight) = expected[place];
        if paths[place].links.as_slice() != links || paths[place].weight != weight {
            return false;
        }
    }
    true
}

/// Whether these are the pairs with their paths: the source, the destination and the paths of each.
pub fn are_routes(routes: &[PairRoutes], expected: &[(u32, u32, &[WeightedPath])]) -> bool {
    if routes.len() != expected.len() {
        return false;
    }
    for place in 0..routes.len() {
        let (src, dst, paths) = expected[place];
        let pair = routes[place].pair;
        if pair.src != src || pair.dst != dst || !are_paths(routes[place].paths.as_slice(), paths) {
            return false;
        }
    }
    true
}
