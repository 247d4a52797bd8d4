//! A walk along the blocks of a hose certificate, which ascend by their links.
ghost use Rattle.std.specs.Prelude.{◌≡◌, ℕ, ◌+◌, ◌<◌, All};
ghost use Rattle.ratio_checker.specs.Ascending.{AscendsFrom};
ghost use Rattle.hose_bound.specs.Judging.{IsSmallBlock};
ghost use Rattle.hose_bound.specs.Verdict.{hose_block_of};

use crate::hose::HoseBlock;

// The blocks of later links.
pub fn blocks_after(blocks: &[HoseBlock], link: u32) -> &[HoseBlock]
    requires { AscendsFrom (λ b. b.link) link blocks.now }
    ensures ascend { AscendsFrom (λ b. b.link) (link + 1) result.now }
    ensures same { (e : ℕ) → link < e → hose_block_of result.now e ≡ hose_block_of blocks.now e }
    ensures rest { All IsSmallBlock blocks.now → All IsSmallBlock result.now }
{
    match blocks.first() {
        Some(block) if block.link == link => &blocks[1..],
        _ => blocks,
    }
}
