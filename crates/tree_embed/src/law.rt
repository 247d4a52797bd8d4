//! What holds of every tree, and that tree paths exist.
ghost use Rattle.std.specs.Prelude.{◌≡◌, ◌<◌, ℕ, List, Option};
ghost use Rattle.te_model.specs.Network.{node_count};
ghost use Rattle.tree_embed.specs.Laws.{TreePathsExist};
ghost use Rattle.tree_embed.specs.TreePaths.{IsTreePath};
ghost use Rattle.tree_embed.specs.declared.centers.TheConstants.{TOP_LEVEL};

use crate::embedding::Tree;

/// A tree has one path from one node to another, or none.
pub fn tree_paths_are_unique(tree: &Tree)
    ensures { (s : ℕ) → (t : ℕ) → s < node_count tree.now.network → t < node_count tree.now.network → (p : Option (List ℕ)) → (q : Option (List ℕ)) → IsTreePath tree.now s t p → IsTreePath tree.now s t q → p ≡ q }
{}

/// From each node to another that some links lead to, a tree has a path, and it is a path of the network.
pub fn tree_paths_exist()
    ensures { TreePathsExist }
{}

/// Levels end at 36: the radius of the level below it is more than any least sum of lengths.
pub fn levels_end_at_36()
    ensures { TOP_LEVEL ≡ 36 }
{}
