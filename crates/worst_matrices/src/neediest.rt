//! The link whose block needs most.
ghost use Rattle.std.specs.Prelude.{◌<◌, ◌≡◌, IfSome, IsTrue, All, length};
ghost use Rattle.te_model.specs.Network.{is_well_formed, link_count};
ghost use Rattle.best_blocks.specs.Need.{HasNumbers};
ghost use Rattle.worst_matrices.specs.Neediest.{need_on, IsNeediestLink};

use best_blocks::need;
use routing::Shares;
use te_model::{Block, Network};

/// The need of the block where some pair has a share on its link, and else 0.
fn need_on(net: &Network, shares: &Shares, block: &Block) -> u128
    requires network { IsTrue (is_well_formed net.now) }
    requires shares { length shares.now ≡ link_count net.now }
    requires block { HasNumbers net.now block.now }
    ensures { result ≡ need_on net.now shares.now block.now }
{
    if shares.on(block.link).len() > 0 {
        need(net, block)
    } else {
        0
    }
}

/// The link of the first block that needs most, of those on whose links some pair has a share, or none where each of these needs 0.
/// Takes no memory.
pub fn neediest_link(net: &Network, shares: &Shares, blocks: &[Block]) -> Option<u32>
    requires network { IsTrue (is_well_formed net.now) }
    requires shares { length shares.now ≡ link_count net.now }
    requires blocks { All (HasNumbers net.now) blocks.now }
    ensures within { IfSome result (λ e. e < link_count net.now) }
    ensures neediest { IsNeediestLink net.now shares.now blocks.now result }
{
    let mut most = 0;
    let mut found = None;
    for block in blocks {
        let need = need_on(net, shares, block);
        if need > most {
            most = need;
            found = Some(block.link);
        }
    }
    found
}
