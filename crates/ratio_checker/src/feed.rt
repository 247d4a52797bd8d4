//! The verdict on a certificate whose blocks come one at a time.
ghost use Rattle.std.specs.Prelude.{◌≡◌, ℕ, ◌+◌, ◌-◌, ◌≤◌, ◌↔◌, List, Option};
ghost use Rattle.te_model.specs.declared.certificate.Block.{Block};
ghost use Rattle.te_model.specs.declared.certificate.Head.{Head};
ghost use Rattle.te_model.specs.Counting.{or_else};
ghost use Rattle.te_model.specs.First.{IsFirstFailure};
ghost use Rattle.te_model.specs.Inequalities.{LinkFailure, block_failure, first_failure, of_link, Holds};
ghost use Rattle.te_model.specs.Network.{link_count};
ghost use Rattle.te_model.specs.Ratio.{IsObliviousRatio};
ghost use Rattle.ratio_checker.specs.Checked.{CanCheckBlock};
ghost use Rattle.ratio_checker.specs.Finding.{finding_of};

use crate::block_feed::BlockFeed;
use crate::finding::{Finding, block_failure, finding_on};
use crate::share_rows::shares_failure;
use crate::share_table::ShareTable;
use std::alloc::Global;
use te_model::{Block, Head, Memory};

/// What is found of a head and of the blocks that came so far, which ascend by their links. No block is kept.
#[derive(Drop)]
pub struct Feed {
    head: Head,
    shares: ShareTable,
    next: u32,
    found: Finding,
}

impl Feed {
    ghost use Rattle.ratio_checker.specs.Feeds.{CanJudge, StandsFor, failure_without, head_of_feed};

    /// The head that `new` was given.
    pub fn head(&self) -> &Head
        ensures { result.now ≡ head_of_feed self.now }
    {
        &self.head
    }

    // What is found of the links without a block, from the next one on and below the end.
    fn judge_absent(&self, end: u32) -> Finding
        requires feed { CanJudge self.now }
        requires above { self.now.next ≤ end }
        requires within { end ≤ link_count self.now.head.network }
        ensures { result ≡ finding_of (failure_without self.now.head.routes self.now.next (end - self.now.next)) }
    {
        for link in self.next..end {
            if let Some(failure) = self.shares.on(link).first_share() {
                return finding_on(link, failure);
            }
        }
        Finding::Yes
    }

    // What is found of the links from the next one on, up to that of the block.
    fn judge(&self, block: &Block) -> Finding
        requires feed { CanJudge self.now }
        requires block { CanCheckBlock self.now.head block.now }
        requires above { self.now.next ≤ block.now.link }
        ensures { result ≡ finding_of (or_else (failure_without self.now.head.routes self.now.next (block.now.link - self.now.next))
            (of_link block.now.link (block_failure self.now.head block.now))) }
    {
        let absent = self.judge_absent(block.link);
        if !matches!(absent, Finding::Yes) {
            return absent;
        }
        let shares = shares_failure(&self.head, block, self.shares.on(block.link));
        match block_failure(&self.head, block, shares) {
            Some(failure) => finding_on(block.link, failure),
            None => Finding::Yes,
        }
    }

    // What is found already, or else of the links from the next one on, up to that of the block.
    fn found_with(&self, block: &Block) -> Finding
        requires feed { CanJudge self.now }
        requires block { CanCheckBlock self.now.head block.now }
        requires above { self.now.next ≤ block.now.link }
        ensures { (first : Option LinkFailure) → self.now.found ≡ finding_of first →
            result ≡ finding_of (or_else first (or_else
            (failure_without self.now.head.routes self.now.next (block.now.link - self.now.next))
            (of_link block.now.link (block_failure self.now.head block.now)))) }
    {
        match self.found {
            Finding::Yes => self.judge(block),
            Finding::No { .. } => self.found,
        }
    }

    // The finding that the first failure makes.
    fn first_finding(&self) -> Finding
        requires { (head : Head) × (blocks : List Block) × StandsFor self.now head blocks }
        ensures { (head : Head) → (blocks : List Block) → StandsFor self.now head blocks →
            result ≡ finding_of (first_failure (record { head = head; blocks = blocks })) }
    {
        match self.found {
            Finding::Yes => self.judge_absent(self.head.network.links.as_slice().len() as u32),
            _ => self.found,
        }
    }

    /// The verdict on the certificate of the head and the blocks that came.
    pub fn finish(self) -> Finding
        requires { (head : Head) × (blocks : List Block) × StandsFor self head blocks }

        ensures finding { (head : Head) → (blocks : List Block) → StandsFor self head blocks →
            result ≡ finding_of (first_failure (record { head = head; blocks = blocks })) }
        ensures yes { (head : Head) → (blocks : List Block) → StandsFor self head blocks →
            (result ≡ Finding.Yes) ↔ Holds (record { head = head; blocks = blocks }) }

        // The failing link, rule and place that are least in this order.
        ensures no { (head : Head) → (blocks : List Block) → StandsFor self head blocks →
            (link rule place : ℕ) → result ≡ Finding.No link rule place →
            IsFirstFailure (record { head = head; blocks = blocks }) (record { link = link; rule = rule; place = place }) }

        // No routing of any matrix of the set does better than by the ratio.
        ensures ratio { result ≡ Finding.Yes →
            IsObliviousRatio (head_of_feed self).network (head_of_feed self).routes (head_of_feed self).set (head_of_feed self).ratio }
    {
        self.first_finding()
    }
}

impl BlockFeed for Feed {
    ghost use Rattle.ratio_checker.specs.Feeds.{StandsFor, head_of_feed, next_link};

    ghost stands_for = { StandsFor };

    ghost given_head = { head_of_feed };

    ghost least_link = { next_link };

    /// The memory is 6 bytes for each pair on each link on which it has a share.
    fn new(alloc: Global, head: Head) -> Result<Feed, Memory> {
        let shares = ShareTable::new(alloc, &head)?;
        Ok(Feed {
            head,
            shares,
            next: 0,
            found: Finding::Yes,
        })
    }

    /// Judges the links without a block since the last one, and then that of the block. What was found first stands.
    fn block(&mut self, block: &Block) {
        self.found = self.found_with(block);
        self.next = block.link + 1;
    }
}
