//! I2 of one link, over the shares of all pairs on it.
ghost use Rattle.std.specs.Prelude.{◌≡◌};
ghost use Rattle.te_model.specs.Inequalities.{shares_failure};
ghost use Rattle.ratio_checker.specs.Checked.{CanCheckHead, CanCheckBlock};
ghost use Rattle.ratio_checker.specs.Shares.{AreSharesOn};

use crate::link_pairs::LinkPairs;
use crate::rows::potentials_of;
use crate::shares::{covers, is_free};
use te_model::{Block, Head, InequalityFault, number_at};

/// Where I2 fails first of the block, given the shares on its link. Pairs ascend by their sources, so the row of each is
/// looked up once.
pub fn shares_failure(head: &Head, block: &Block, shares: &LinkPairs) -> Option<InequalityFault>
    requires head { CanCheckHead head.now }
    requires block { CanCheckBlock head.now block.now }
    requires shares { AreSharesOn head.now.routes block.now.link shares.now }
    ensures { result ≡ shares_failure head.now.routes block.now }
{
    let routes = head.routes.as_slice();
    let rows = block.rows.as_slice();
    let mut source = 0;
    let mut potentials = potentials_of(rows, source);
    let mut place = 0;
    for p in 0..routes.len() {
        let pair = routes[p].pair;
        if pair.src != source {
            source = pair.src;
            potentials = potentials_of(rows, source);
        }
        let (share, next) = shares.share_at(place, p);
        place = next;
        let distance = number_at(potentials, pair.dst as usize);
        if !is_free(block, p, share) && !covers(block, p, share, distance) {
            return Some(InequalityFault {
                number: 2,
                place: p as u64,
            });
        }
    }
    None
}
