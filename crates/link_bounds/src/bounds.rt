//! What the blocks of a certificate prove of each link, where they come one at a time.
ghost use Rattle.std.specs.Prelude.{List, Option};
ghost use Rattle.te_model.specs.declared.certificate.Head.{Head};

use crate::feasibility::infeasibility_from;
use crate::table::table_text;
use best_blocks::need;
use ratio_checker::share_table::ShareTable;
use ratio_checker::{BlockFeed, Finding};
use std::alloc::Global;
use std::slice::from_ref;
use te_model::{Block, Head, Memory};

/// What is found of a certificate.
#[derive(Drop)]
pub enum Bounds {
    /// The first three inequalities hold of every link, and this is the table of the needs: the header
    /// `link,source,target,capacity,need`, and a row for each link with a share, ascending. Needs are in millionths.
    Table(Vec<u8>),
    /// The first of them that fails: its link, its number from 1 to 3, and its place, as in a `Finding`.
    Infeasible { link: u32, rule: u8, place: u64 },
}

/// What is found of a head and of the blocks that came so far, which ascend by their links. Of a block no more than its need is kept.
#[derive(Drop)]
pub struct BoundsFeed {
    head: Head,
    shares: ShareTable,
    next: u32,
    found: Finding,
    needs: Vec<u128>,
}

impl BoundsFeed {
    ghost use Rattle.std.specs.Prelude.{◌≡◌, ◌-◌, ◌≤◌, All, IfOk};
    ghost use Rattle.te_model.specs.declared.certificate.Block.{Block};
    ghost use Rattle.te_model.specs.Counting.{or_else};
    ghost use Rattle.te_model.specs.Feasible.{first_infeasibility};
    ghost use Rattle.te_model.specs.Inequalities.{LinkFailure};
    ghost use Rattle.te_model.specs.Network.{link_count};
    ghost use Rattle.ratio_checker.specs.Ascending.{AscendsFrom};
    ghost use Rattle.ratio_checker.specs.Checked.{CanCheckBlock};
    ghost use Rattle.ratio_checker.specs.Finding.{finding_of};
    ghost use Rattle.link_bounds.specs.Bounds.{AreBoundsOf};
    ghost use Rattle.link_bounds.specs.Feeds.{CanFind, StandsFor, infeasibility_from};

    // What is found already, or else of the links from the next one on and below the end, of which these are the blocks.
    fn found_below(&self, blocks: &[Block], end: u32) -> Finding
        requires feed { CanFind self.now }
        requires blocks { All (CanCheckBlock self.now.head) blocks.now }
        requires ascend { AscendsFrom (λ b. b.link) self.now.next blocks.now }
        requires above { self.now.next ≤ end }
        requires within { end ≤ link_count self.now.head.network }
        ensures { (first : Option LinkFailure) → self.now.found ≡ finding_of first →
            result ≡ finding_of (or_else first (infeasibility_from self.now.head blocks.now self.now.next (end - self.now.next))) }
    {
        match self.found {
            Finding::Yes => { infeasibility_from(&self.head, blocks, &self.shares, self.next, end) }
            Finding::No { .. } => self.found,
        }
    }

    // The finding that the first of I1 to I3 that fails makes.
    fn finding(&self) -> Finding
        requires { (head : Head) × (blocks : List Block) × StandsFor self.now head blocks }
        ensures { (head : Head) → (blocks : List Block) → StandsFor self.now head blocks →
            result ≡ finding_of (first_infeasibility (record { head = head; blocks = blocks })) }
    {
        let links = self.head.network.links.as_slice().len() as u32;
        self.found_below(&[], links)
    }

    /// What is found of the certificate of the head and the blocks that came. `Memory` comes where memory is wanting for the table.
    pub fn finish(&self, alloc: Global) -> Result<Bounds, Memory>
        requires { (head : Head) × (blocks : List Block) × StandsFor self.now head blocks }
        ensures { (head : Head) → (blocks : List Block) → StandsFor self.now head blocks →
            IfOk result (AreBoundsOf (record { head = head; blocks = blocks })) }
    {
        match self.finding() {
            Finding::Yes => {
                let text = table_text(alloc, &self.head, &self.shares, self.needs.as_slice())?;
                Ok(Bounds::Table(text))
            }
            Finding::No { link, rule, place } => Ok(Bounds::Infeasible { link, rule, place }),
        }
    }
}

impl BlockFeed for BoundsFeed {
    ghost use Rattle.link_bounds.specs.Feeds.{StandsFor, head_of_feed, next_link};

    ghost stands_for = { StandsFor };

    ghost given_head = { head_of_feed };

    ghost least_link = { next_link };

    /// The memory is 6 bytes for each pair on each link on which it has a share, and 16 for each link.
    fn new(alloc: Global, head: Head) -> Result<BoundsFeed, Memory> {
        let shares = ShareTable::new(alloc, &head)?;
        let needs = vec![in alloc; 0u128; head.network.links.as_slice().len()]?;
        Ok(BoundsFeed {
            head,
            shares,
            next: 0,
            found: Finding::Yes,
            needs,
        })
    }

    /// Judges the links without a block since the last one, and then that of the block. What was found first stands.
    fn block(&mut self, block: &Block) {
        self.found = self.found_below(from_ref(block), block.link + 1);
        self.needs[block.link as usize] = need(&self.head.network, block);
        self.next = block.link + 1;
    }
}
