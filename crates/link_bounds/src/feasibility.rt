//! Which of the first three inequalities of a certificate fails first.
ghost use Rattle.std.specs.Prelude.{◌≡◌, ◌-◌, ◌≤◌, All, IfOk};
ghost use Rattle.te_model.specs.Certificate.{block_of};
ghost use Rattle.te_model.specs.Inequalities.{shares_failure};
ghost use Rattle.te_model.specs.Network.{link_count};
ghost use Rattle.te_model.specs.Validity.{IsValid};
ghost use Rattle.ratio_checker.specs.Ascending.{AscendsFrom};
ghost use Rattle.ratio_checker.specs.Checked.{CanCheckBlock, CanCheckHead};
ghost use Rattle.ratio_checker.specs.Finding.{finding_of};
ghost use Rattle.ratio_checker.specs.Shares.{AreSharesOn, HasShares};
ghost use Rattle.te_model.specs.Feasible.{first_infeasibility, infeasibility};
ghost use Rattle.link_bounds.specs.Feeds.{infeasibility_from};

use ratio_checker::Finding;
use ratio_checker::blocks::blocks_after;
use ratio_checker::finding::{block_failure, finding_on};
use ratio_checker::link_pairs::LinkPairs;
use ratio_checker::share_rows::shares_failure;
use ratio_checker::share_table::ShareTable;
use std::alloc::Global;
use te_model::{Block, Certificate, Head, InequalityFault, Memory};

// The first of I1 to I3 that fails of what the block says of its link, where `shares` is what fails of I2. I4 comes last, so where
// it is the first of the four none of the three fails.
fn infeasibility(
    head: &Head,
    block: &Block,
    shares: Option<InequalityFault>,
) -> Option<InequalityFault>
    requires head { CanCheckHead head.now }
    requires block { CanCheckBlock head.now block.now }
    requires shares { shares ≡ shares_failure head.now.routes block.now }
    ensures { result ≡ infeasibility head.now block.now }
{
    match block_failure(head, block, shares) {
        Some(failure) if failure.number == 4 => None,
        failure => failure,
    }
}

// The same of the link, whose block is the first if it is there, and on which these are the shares. Of a link without a block only
// I2 can fail.
fn link_infeasibility(
    head: &Head,
    blocks: &[Block],
    link: u32,
    shares: &LinkPairs,
) -> Option<InequalityFault>
    requires head { CanCheckHead head.now }
    requires blocks { All (CanCheckBlock head.now) blocks.now }
    requires ascend { AscendsFrom (λ b. b.link) link blocks.now }
    requires shares { AreSharesOn head.now.routes link shares.now }
    ensures { result ≡ infeasibility head.now (block_of blocks.now link) }
{
    match blocks.first() {
        Some(block) if block.link == link => {
            infeasibility(head, block, shares_failure(head, block, shares))
        }
        _ => shares.first_share(),
    }
}

// What is found of the links from this one on and below the end, of which these are the blocks. They ascend by their links, so one walk
// serves both.
pub fn infeasibility_from(
    head: &Head,
    blocks: &[Block],
    shares: &ShareTable,
    from: u32,
    end: u32,
) -> Finding
    requires head { CanCheckHead head.now }
    requires blocks { All (CanCheckBlock head.now) blocks.now }
    requires ascend { AscendsFrom (λ b. b.link) from blocks.now }
    requires shares { HasShares head.now.routes (link_count head.now.network) shares.now }
    requires above { from ≤ end }
    requires within { end ≤ link_count head.now.network }
    ensures { result ≡ finding_of (infeasibility_from head.now blocks.now from (end - from)) }
{
    let mut rest = blocks;
    for link in from..end {
        if let Some(failure) = link_infeasibility(head, rest, link, shares.on(link)) {
            return finding_on(link, failure);
        }
        rest = blocks_after(rest, link);
    }
    Finding::Yes
}

/// Which of the first three inequalities fails first, in order of link, inequality and place, or yes where they hold of every link.
///
/// `Memory` comes where memory is wanting: 6 bytes for each pair on each link on which it has a share.
pub fn find_infeasibility(alloc: Global, certificate: &Certificate) -> Result<Finding, Memory>
    requires { IsValid certificate.now }
    ensures { IfOk result (λ finding. finding ≡ finding_of (first_infeasibility certificate.now)) }
{
    let shares = ShareTable::new(alloc, &certificate.head)?;
    let links = certificate.head.network.links.as_slice().len() as u32;
    let blocks = certificate.blocks.as_slice();
    Ok(infeasibility_from(&certificate.head, blocks, &shares, 0, links))
}
