//! What is found of a certificate: the inequalities of each link, in order, and the first that fails.
ghost use Rattle.std.specs.Prelude.{◌≡◌, ℕ, ◌↔◌, All};
ghost use Rattle.te_model.specs.declared.certificate.Head.{Head};
ghost use Rattle.te_model.specs.Network.{link_count};
ghost use Rattle.te_model.specs.Certificate.{block_of};
ghost use Rattle.te_model.specs.Inequalities.{block_failure, shares_failure, first_failure, Holds};
ghost use Rattle.te_model.specs.First.{IsFirstFailure};
ghost use Rattle.te_model.specs.Ratio.{IsObliviousRatio};
ghost use Rattle.te_model.specs.Validity.{IsValid};
ghost use Rattle.ratio_checker.specs.Ascending.{AscendsFrom};
ghost use Rattle.ratio_checker.specs.Finding.{finding_of};
ghost use Rattle.ratio_checker.specs.Checked.{CanCheckHead, CanCheckBlock};

use crate::blocks::blocks_after;
use crate::bounds::keeps_bounds;
use crate::capacity::pays_weights;
use crate::potentials::potentials_failure;
use crate::shares::{fault_on, first_uncovered};
use te_model::{Block, Certificate, Head, InequalityFault};

/// What is found of a certificate.
#[derive(Clone, Copy, Debug, PartialEq, Eq)]
pub enum Finding {
    /// The stated inequalities hold of every link.
    Yes,
    /// The first that fails: its link, its number from 1 to 4, and its place. The place is i * (m + 1) for the potential
    /// of source i at itself and h + 1 later along link h, where m is the number of links; it is the pair's number in I2,
    /// and 0 in I3 and I4.
    No { link: u32, rule: u8, place: u64 },
}

// The finding of a failure on the link.
pub fn finding_on(link: u32, failure: InequalityFault) -> Finding
    ensures { result ≡ Finding.No link failure.number failure.place }
{
    Finding::No {
        link,
        rule: failure.number,
        place: failure.place,
    }
}

// The first inequality that fails of what the block says of its link, where `shares` is what fails of I2.
pub fn block_failure(
    head: &Head,
    block: &Block,
    shares: Option<InequalityFault>,
) -> Option<InequalityFault>
    requires head { CanCheckHead head.now }
    requires block { CanCheckBlock head.now block.now }
    requires shares { shares ≡ shares_failure head.now.routes block.now }
    ensures { result ≡ block_failure head.now block.now }
{
    let failure = potentials_failure(&head.network, block);
    if failure.is_some() {
        return failure;
    }
    if shares.is_some() {
        return shares;
    }
    if !keeps_bounds(&head.set, head.routes.as_slice().len(), block) {
        return Some(InequalityFault {
            number: 3,
            place: 0,
        });
    }
    if !pays_weights(&head.network, block, head.ratio) {
        return Some(InequalityFault {
            number: 4,
            place: 0,
        });
    }
    None
}

// The first inequality that fails of the link, whose block is the first if it is there. Of a link without a block only I2 can fail.
fn link_failure(
    head: &Head,
    blocks: &[Block],
    link: u32,
    shares: Option<InequalityFault>,
) -> Option<InequalityFault>
    requires head { CanCheckHead head.now }
    requires blocks { All (CanCheckBlock head.now) blocks.now }
    requires ascend { AscendsFrom (λ b. b.link) link blocks.now }
    requires shares { shares ≡ shares_failure head.now.routes (block_of blocks.now link) }
    ensures { result ≡ block_failure head.now (block_of blocks.now link) }
{
    match blocks.first() {
        Some(block) if block.link == link => block_failure(head, block, shares),
        _ => shares,
    }
}

// The finding that the first failure makes. Blocks ascend by their links, so one walk serves both.
fn first_finding(cert: &Certificate) -> Finding
    requires { IsValid cert.now }
    ensures { result ≡ finding_of (first_failure cert.now) }
{
    let mut blocks = cert.blocks.as_slice();
    let uncovered = first_uncovered(&cert.head, blocks);
    for e in 0..cert.head.network.links.as_slice().len() {
        let link = e as u32;
        if let Some(failure) = link_failure(&cert.head, blocks, link, fault_on(uncovered, link)) {
            return finding_on(link, failure);
        }
        blocks = blocks_after(blocks, link);
    }
    Finding::Yes
}

/// Whether the stated inequalities hold of every link, or else the first that fails. What the certificate does not list,
/// a link's block or a source's row, is read as zero (b as 1).
///
/// The inequalities are the dual of the linear program for the oblivious ratio (Applegate and Cohen, 2003).
pub fn verdict(cert: &Certificate) -> Finding
    requires { IsValid cert.now }

    ensures finding { result ≡ finding_of (first_failure cert.now) }
    ensures yes { (result ≡ Finding.Yes) ↔ Holds cert.now }

    // The failing link, rule and place that are least in this order.
    ensures no { (link rule place : ℕ) → result ≡ Finding.No link rule place →
        IsFirstFailure cert.now (record { link = link; rule = rule; place = place }) }

    // No routing of any matrix of the set does better than by the ratio.
    ensures ratio { result ≡ Finding.Yes →
        IsObliviousRatio cert.now.head.network cert.now.head.routes cert.now.head.set cert.now.head.ratio }
{
    first_finding(cert)
}
