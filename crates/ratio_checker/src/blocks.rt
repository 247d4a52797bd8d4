//! A walk along the blocks, which ascend by their links.
ghost use Rattle.std.specs.Prelude.{◌≡◌, ℕ, ◌+◌, ◌<◌, All};
ghost use Rattle.te_model.specs.declared.certificate.Head.{Head};
ghost use Rattle.te_model.specs.Certificate.{block_of};
ghost use Rattle.ratio_checker.specs.Ascending.{AscendsFrom};
ghost use Rattle.ratio_checker.specs.Checked.{CanCheckBlock};

use te_model::Block;

/// The blocks of later links, of blocks from this link on.
pub fn blocks_after(blocks: &[Block], link: u32) -> &[Block]
    requires { AscendsFrom (λ b. b.link) link blocks.now }
    ensures ascend { AscendsFrom (λ b. b.link) (link + 1) result.now }
    ensures same { (e : ℕ) → link < e → block_of result.now e ≡ block_of blocks.now e }
    ensures rest { (head : Head) → All (CanCheckBlock head) blocks.now → All (CanCheckBlock head) result.now }
{
    match blocks.first() {
        Some(block) if block.link == link => &blocks[1..],
        _ => blocks,
    }
}
