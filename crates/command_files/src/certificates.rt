//! Reading the file of a certificate one block at a time: what is found of it, or the line that refuses it.
ghost use Rattle.std.specs.Prelude.{IfOk};
ghost use Rattle.te_model.specs.Validity.{IsValidHead};
ghost use Rattle.te_ports.specs.Record.{pass};
ghost use Rattle.command_files.specs.Blocks.{FeedsFile, HeadsFile, IsFedWhole, IsHeadOf, IsAnswerTo, ReadsOn};
ghost use Rattle.te_ports.specs.Shown.{shown_by};

use crate::reasons::FormatReason;
use block_reader::{BlockReader, StreamFault};
use command_frame::{Fault, refuse, too_long};
use ratio_checker::BlockFeed;
use std::alloc::Global;
use te_model::Head;
use te_ports::Depot;

// What is answered where the file has this fault.
fn answer_to(alloc: Global, file: &str, fault: StreamFault) -> Fault
    ensures { IsAnswerTo file.now fault result }
{
    match fault {
        StreamFault::TooLong => too_long(alloc, file),
        StreamFault::Shape(line) => refuse(alloc, file, FormatReason::Shape(line)),
        StreamFault::Rule(rule) => refuse(alloc, file, FormatReason::Rule("V", rule)),
        StreamFault::Failed => Fault::Read,
        StreamFault::Memory => Fault::Memory,
    }
}

// A feed that was given the head of the file, and each of its blocks. The file is read to its end.
fn feed_blocks<F: BlockFeed + Drop, D: Depot>(
    alloc: Global,
    depot: &mut D,
    file: &str,
) -> Result<F, StreamFault>
    ensures whole { IfOk result (IsFedWhole F.stands_for (pass file.now (D.gave depot.old) (D.gave depot.new))) }
    ensures reads { ReadsOn file.now (shown_by D.content D.gave D.faults depot.old)
        (shown_by D.content D.gave D.faults depot.new) result }
{
    let (mut reader, head) = BlockReader::open(alloc, depot, file)?;
    let Ok(mut feed) = F::new(alloc, head) else {
        return Err(StreamFault::Memory);
    };
    'rest: while reader.next(depot)? {
        feed.block(reader.block());
    }
    Ok(feed)
}

/// What is found of the certificate that the file of this name gives, as a feed that was given its head and all its
/// blocks. No more than one of them is held at a time.
///
/// `Refused` comes only for bytes that reads of the file gave, and `Read` only where a read of it failed in the call.
pub fn feed_in<F: BlockFeed + Drop, D: Depot>(
    alloc: Global,
    depot: &mut D,
    file: &str,
) -> Result<F, Fault>
    ensures { FeedsFile F.stands_for file.now (shown_by D.content D.gave D.faults depot.old)
        (shown_by D.content D.gave D.faults depot.new) result }
{
    match feed_blocks(alloc, depot, file) {
        Ok(feed) => Ok(feed),
        Err(fault) => Err(answer_to(alloc, file, fault)),
    }
}

// The head of the file. Each of its blocks is read and judged, and none is kept.
fn read_head<D: Depot>(alloc: Global, depot: &mut D, file: &str) -> Result<Head, StreamFault>
    ensures whole { IfOk result (IsHeadOf (pass file.now (D.gave depot.old) (D.gave depot.new))) }
    ensures reads { ReadsOn file.now (shown_by D.content D.gave D.faults depot.old)
        (shown_by D.content D.gave D.faults depot.new) result }
{
    let (mut reader, head) = BlockReader::open(alloc, depot, file)?;
    'rest: while reader.next(depot)? {}
    Ok(head)
}

/// The head of the certificate that the file of this name gives, which is valid. The blocks are read and judged one after another, and none
/// is kept.
///
/// `Refused` comes only for bytes that reads of the file gave, and `Read` only where a read of it failed in the call.
pub fn head_in<D: Depot>(alloc: Global, depot: &mut D, file: &str) -> Result<Head, Fault>
    ensures file { HeadsFile file.now (shown_by D.content D.gave D.faults depot.old)
        (shown_by D.content D.gave D.faults depot.new) result }
    ensures valid { IfOk result IsValidHead }
{
    match read_head(alloc, depot, file) {
        Ok(head) => Ok(head),
        Err(fault) => Err(answer_to(alloc, file, fault)),
    }
}
