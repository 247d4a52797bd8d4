//! What exists of splits by way of every node.
ghost use Rattle.valiant_mix.specs.Laws.{ValiantSplitsExist};

/// Each pair of a well-formed network that has a path has the split in even parts by way of every
/// node, over no more paths than there are nodes.
pub fn valiant_splits_exist()
    ensures { ValiantSplitsExist }
{}
