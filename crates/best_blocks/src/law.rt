//! What is known of best blocks beyond any one call.
ghost use Rattle.best_blocks.specs.Laws.{BestBlocksExist};

/// A link with a share has a best block for weights of 1 to 2^28.
pub fn best_blocks_exist()
    ensures { BestBlocksExist }
{}
