//! What exists of first paths and even splits.
ghost use Rattle.k_paths.specs.Laws.{EvenSplitsExist, FirstPathsExist};

/// Two nodes of a well-formed network have `k` first paths, or fewer where there are fewer.
pub fn first_paths_exist()
    ensures { FirstPathsExist }
{}

/// Each pair with a path has the even split over its first `k` paths, where `k` is from 1 to 32.
pub fn even_splits_exist()
    ensures { EvenSplitsExist }
{}
