//! What takes a certificate one block at a time.
ghost use Rattle.std.specs.Prelude.{◌≡◌, ℕ, ◌+◌, ◌≤◌, ◌++◌, ◌∷◌, [], List, IfOk};
ghost use Rattle.te_model.specs.declared.certificate.Block.{Block};
ghost use Rattle.te_model.specs.declared.certificate.Head.{Head};
ghost use Rattle.te_model.specs.Validity.{IsValidBlock, IsValidHead};

use std::alloc::Global;
use te_model::{Block, Head, Memory};

/// What takes the head of a certificate, and then its blocks one at a time, which ascend by their links.
pub trait BlockFeed {
    /// It was given this head and these blocks.
    ghost stands_for: { Self → Head → List Block → Type 0 };

    /// The head that it was given.
    ghost given_head: { Self → Head };

    /// The least link of which a block may follow.
    ghost least_link: { Self → ℕ };

    /// Takes a valid head, and all the memory of the feed.
    fn new(alloc: Global, head: Head) -> Result<Self, Memory>
        requires { IsValidHead head }
        ensures { IfOk result (λ f. stands_for f head [] × (given_head f ≡ head) × (least_link f ≡ 0)) };

    /// Takes a block, which is valid and above the last.
    fn block(&mut self, block: &Block)
        requires fed { (head : Head) × (blocks : List Block) × stands_for self.old head blocks }
        requires block { IsValidBlock (given_head self.old) block.now }
        requires above { least_link self.old ≤ block.now.link }
        ensures fed { (head : Head) → (blocks : List Block) → stands_for self.old head blocks →
            stands_for self.new head (blocks ++ block.now ∷ []) }
        ensures rest { (given_head self.new ≡ given_head self.old) × (least_link self.new ≡ block.now.link + 1) };
}
