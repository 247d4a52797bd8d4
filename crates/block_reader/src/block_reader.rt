//! Reading the file of a certificate one block at a time.
ghost use Rattle.std.specs.Prelude.{◌≡◌, ◌≢◌, None, Some, true};
ghost use Rattle.block_reader.specs.declared.window.State.{State};
ghost use Rattle.block_reader.specs.declared.stream_fault.StreamFault.{StreamFault};
ghost use Rattle.block_reader.specs.Standing.{state_of};

use crate::blocks::Blocks;
use crate::lines::Lines;
use crate::opening::{block_size, format_and_head};
use crate::parts::{BlockCount, read_part};
use crate::room::Room;
use crate::stream_fault::StreamFault;
use cert_text::grammar::counts_of_head;
use std::alloc::Global;
use te_model::{Block, Head, head_fault, limits_of};
use te_ports::Depot;

/// Reads the file of a certificate of either format one block at a time. It keeps one block, and some bytes of the file.
#[derive(Drop)]
pub struct BlockReader {
    blocks: Blocks,
    held: bool,
    over: bool,
    fault: Option<StreamFault>,
    ghost well: { fault ≡ None → state_of blocks.lines.window ≢ State.Failed },
    ghost end: { over ≡ true → blocks.left ≡ 0 },
    ghost apart: { over ≡ true → fault ≡ None },
    ghost memory: { fault ≢ Some StreamFault.Memory },
}

impl BlockReader {
    ghost use Rattle.std.specs.Prelude.{◌≤◌, ◌<◌, ◌⊎◌, ◌++◌, ◌∷◌, [], ℕ, List, Ok, Err, IfOk, IsErrOf, IsTrue, false};
    ghost use Rattle.te_model.specs.declared.certificate.Block.{Block};
    ghost use Rattle.te_model.specs.declared.certificate.Head.{Head};
    ghost use Rattle.te_model.specs.Formats.{limits_of};
    ghost use Rattle.te_model.specs.Validity.{follows, IsValidHead, IsValidBlock};
    ghost use Rattle.cert_text.specs.Fits.{FitsHead};
    ghost use Rattle.te_ports.specs.Ports.{Rose};
    ghost use Rattle.te_ports.specs.Record.{Adds, IsBegun, Read, pass};
    ghost use Rattle.te_ports.specs.Shown.{shown_by};
    ghost use Rattle.block_reader.specs.Answers.{IsWell};
    ghost use Rattle.block_reader.specs.Depots.{ReadsNamed};
    ghost use Rattle.block_reader.specs.Blocks.{AreBehind, HasRead, IsReaderOf, IsFaultOf, IsTextOf, ReaderStandsAt, IsBehindHead, CountsBlocks, name_of, lent_block, last_link, blocks_left, holds_block, noted_fault, is_over};

    /// Reads what stands before the blocks of the file of this name.
    ///
    /// # Errors
    ///
    /// - `Failed` where a read of the file failed in the call;
    /// - `TooLong` where it has more bytes than the limit of its format;
    /// - `Shape` where it leaves the format before the blocks, or where a rule of the head fails and it leaves the format
    ///   behind it;
    /// - `Rule` where it has the right shape, and a rule of the head fails;
    /// - `Memory` where memory is short.
    pub fn open<D: Depot>(
        alloc: Global,
        depot: &mut D,
        name: &str,
    ) -> Result<(BlockReader, Head), StreamFault>
        ensures head { IfOk result (λ r. HasRead (pass name.now (D.gave depot.old) (D.gave depot.new)) r.0 r.1 []) }
        ensures valid { IfOk result (λ r. IsValidHead r.1) }
        ensures of_head { IfOk result (λ r. IsReaderOf r.0 r.1) }
        ensures start { IfOk result (λ r. last_link r.0 ≡ None) }
        ensures name { IfOk result (λ r. name_of r.0 ≡ name.now) }
        ensures refused { (fault : StreamFault) → result ≡ Err fault →
            IsFaultOf (pass name.now (D.gave depot.old) (D.gave depot.new)) fault }
        ensures begun { IsBegun (pass name.now (D.gave depot.old) (D.gave depot.new)) }
        ensures failed { IsErrOf result StreamFault.Failed → Rose (D.faults depot.old name.now) (D.faults depot.new name.now) }
        ensures steady { result ≢ Err StreamFault.Failed → D.faults depot.new ≡ D.faults depot.old }
        ensures later { (other : List ℕ) → D.faults depot.old other ≤ D.faults depot.new other }
        ensures added { Adds (D.content depot.old) (D.gave depot.old) (D.gave depot.new) }
        ensures content { D.content depot.new ≡ D.content depot.old }
    {
        let (mut reader, head) = BlockReader::read_head(alloc, depot, name)?;
        match head_fault(&head) {
            None => Ok((reader, head)),
            Some(fault) => Err(reader.blocks.judge_rest(depot, fault)),
        }
    }

    // Reads what stands before the blocks, and stands behind it.
    fn read_head<D: Depot>(
        alloc: Global,
        depot: &mut D,
        name: &str,
    ) -> Result<(BlockReader, Head), StreamFault>
        ensures stands { IfOk result (λ r. AreBehind (pass name.now (D.gave depot.old) (D.gave depot.new)) r.0.blocks r.1 []) }
        ensures fresh { IfOk result (λ r. (noted_fault r.0 ≡ None) × (is_over r.0 ≡ false)) }
        ensures start { IfOk result (λ r. last_link r.0 ≡ None) }
        ensures name { IfOk result (λ r. name_of r.0 ≡ name.now) }
        ensures refused { (fault : StreamFault) → result ≡ Err fault →
            IsFaultOf (pass name.now (D.gave depot.old) (D.gave depot.new)) fault }
        ensures reads { ReadsNamed (shown_by D.content D.gave D.faults depot.old) (shown_by D.content D.gave D.faults depot.new)
            name.now result }
    {
        let mut lines = Lines::open(alloc, depot, name)?;
        let head = format_and_head(alloc, depot, name, &mut lines)?;
        let reader = BlockReader::behind(alloc, depot, name, lines, &head)?;
        Ok((reader, head))
    }

    // Reads the count of the blocks, and stands behind it.
    fn behind<D: Depot>(
        alloc: Global,
        depot: &mut D,
        name: &str,
        mut lines: Lines,
        head: &Head,
    ) -> Result<BlockReader, StreamFault>
        requires well { IsWell lines }
        requires fits { FitsHead (limits_of head.now.format) head.now }
        ensures behind { IfOk result (λ r. IsBehindHead r name.now head.now) }
        ensures counts { (before : List Read) → CountsBlocks (pass name.now before (D.gave depot.old))
            (pass name.now before (D.gave depot.new)) lines head.now result }
        ensures reads { ReadsNamed (shown_by D.content D.gave D.faults depot.old) (shown_by D.content D.gave D.faults depot.new)
            name.now result }
    {
        let limits = limits_of(head.format);
        let part = BlockCount { limits: &limits };
        let left = read_part(alloc, depot, name, &mut lines, &part)?;
        let counts = counts_of_head(head);
        let size = block_size(&limits, &counts);
        let name = String::from_str(alloc, name)?;
        let room = Room::new(alloc, &limits, &counts)?;
        Ok(BlockReader {
            blocks: Blocks {
                name,
                lines,
                room,
                size,
                left,
                place: 0,
                before: None,
            },
            held: false,
            over: false,
            fault: None,
        })
    }

    /// Reads the next block. `false` says that there is none, and that the file ends as it should: the head and the blocks
    /// that were handed out are its valid certificate. After the end or a fault the same is answered again, and nothing is
    /// read.
    ///
    /// # Errors
    ///
    /// - `Failed` where a read of the file failed in the call;
    /// - `TooLong` where it has more bytes than the limit of its format;
    /// - `Shape` where it leaves the format;
    /// - `Rule` where it has the right shape, and a rule of the blocks fails.
    pub fn next<D: Depot>(&mut self, depot: &mut D) -> Result<bool, StreamFault>
        ensures handed { result ≡ Ok true → (before : List Read) → (head : Head) → (blocks : List Block) →
            HasRead (pass (name_of self.old) before (D.gave depot.old)) self.old head blocks →
            HasRead (pass (name_of self.old) before (D.gave depot.new)) self.new head (blocks ++ lent_block self.new ∷ []) }
        ensures whole { result ≡ Ok false → (before : List Read) → (head : Head) → (blocks : List Block) →
            HasRead (pass (name_of self.old) before (D.gave depot.old)) self.old head blocks →
            IsTextOf (pass (name_of self.old) before (D.gave depot.new)) head blocks }
        ensures refused { (fault : StreamFault) → result ≡ Err fault → (before : List Read) → (head : Head) → (blocks : List Block) →
            HasRead (pass (name_of self.old) before (D.gave depot.old)) self.old head blocks →
            IsFaultOf (pass (name_of self.old) before (D.gave depot.new)) fault }
        ensures stands { (before : List Read) → ReaderStandsAt (pass (name_of self.old) before (D.gave depot.old)) self.old →
            ReaderStandsAt (pass (name_of self.old) before (D.gave depot.new)) self.new }
        ensures begun { (before : List Read) → ReaderStandsAt (pass (name_of self.old) before (D.gave depot.old)) self.old →
            IsBegun (pass (name_of self.old) before (D.gave depot.new)) }
        ensures valid { result ≡ Ok true → (head : Head) → IsReaderOf self.old head → IsValidBlock head (lent_block self.new) }
        ensures ascends { result ≡ Ok true → IsTrue (follows (last_link self.old) (lent_block self.new).link)
            × (last_link self.new ≡ Some (lent_block self.new).link) }
        ensures of_head { (head : Head) → IsReaderOf self.old head → IsReaderOf self.new head }
        ensures holds { result ≡ Ok true → IsTrue (holds_block self.new) }
        ensures fewer { result ≡ Ok true → blocks_left self.new < blocks_left self.old }
        ensures ended { result ≡ Ok false → (blocks_left self.old ≡ 0) × IsTrue (is_over self.new) }
        ensures over { IsTrue (is_over self.old) → (result ≡ Ok false) × (D.faults depot.new ≡ D.faults depot.old)
            × (D.gave depot.new ≡ D.gave depot.old) }
        ensures room { result ≢ Err StreamFault.Memory }
        ensures failed { IsErrOf result StreamFault.Failed → (noted_fault self.old ≡ Some StreamFault.Failed)
            ⊎ Rose (D.faults depot.old (name_of self.old)) (D.faults depot.new (name_of self.old)) }
        ensures keeps_fault { (fault : StreamFault) → result ≡ Err fault → noted_fault self.new ≡ Some fault }
        ensures again { (fault : StreamFault) → noted_fault self.old ≡ Some fault →
            (result ≡ Err fault) × (D.faults depot.new ≡ D.faults depot.old) × (D.gave depot.new ≡ D.gave depot.old) }
        ensures steady { result ≢ Err StreamFault.Failed → D.faults depot.new ≡ D.faults depot.old }
        ensures later { (other : List ℕ) → D.faults depot.old other ≤ D.faults depot.new other }
        ensures added { Adds (D.content depot.old) (D.gave depot.old) (D.gave depot.new) }
        ensures content { D.content depot.new ≡ D.content depot.old }
        ensures name { name_of self.new ≡ name_of self.old }
    {
        if let Some(fault) = self.fault {
            return Err(fault);
        }
        if self.over {
            return Ok(false);
        }
        let answer = self.blocks.advance(depot);
        match answer {
            Ok(more) => {
                self.held = more;
                self.over = !more;
            }
            Err(fault) => {
                self.held = false;
                self.fault = Some(fault);
            }
        }
        answer
    }

    /// The block that was read last.
    pub fn block(&self) -> &Block
        requires { IsTrue (holds_block self.now) }
        ensures { result.now ≡ lent_block self.now }
    {
        &self.blocks.room.block
    }
}
