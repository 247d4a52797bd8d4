//! Certificates that are read one block at a time, against the reader of whole files.
use crate::blocks::is_same_block;
use crate::cases::{Case, all_hold};
use crate::window_tests::{NEVER, file_of};
use block_reader::{BlockReader, StreamFault};
use cert_text::CertFault::{self, Shape};
use cert_text::{print, read};
use std::alloc::{AllocError, Global};
use te_model::{Block, Certificate, Head, Items, RuleFault};
use te_ports::{Depot, MemDepot, RecordDepot};

// A file that is changed.
#[derive(Clone, Copy)]
enum Sample {
    /// Two parallel links.
    Parallel,
    /// Three nodes and all matrices, with blocks of two links that have no rows.
    Triangle,
    /// Three nodes and a margin.
    Margin,
    /// The same with a box, in the second format.
    Box,
}

// The text of the file.
fn text_of(sample: Sample) -> &'static str {
    match sample {
        Sample::Parallel => {
            "yates-ratio 1\nnodes 2\na\nb\nlinks 2\n0 1 10 1\n0 1 30 1\npairs 1\n0 1 2\n500000 1 0\n500000 1 1\nset all\nratio 2000000\nblocks 2\n0 500000 1 1\n1 1\n0 0 1\n1 500000 1 1\n1 1\n0 0 1\nend\n"
        }
        Sample::Triangle => {
            "yates-ratio 1\nnodes 3\na\nb\nc\nlinks 4\n0 2 10 1\n1 2 10 1\n0 1 10 1\n1 0 10 1\npairs 2\n0 2 1\n1000000 1 0\n1 2 1\n1000000 1 1\nset all\nratio 2000000\nblocks 4\n0 1000000 1 1\n1 1 0 0\n0 0 0 1\n1 1000000 1 1\n1 1 0 0\n1 0 0 1\n2 0 1 0\n0 0 0 0\n3 0 1 0\n0 0 0 0\nend\n"
        }
        Sample::Margin => {
            "yates-ratio 1\nnodes 3\na\nb\nc\nlinks 4\n0 2 10 1\n1 2 10 1\n0 1 10 1\n1 0 10 1\npairs 2\n0 2 1\n1000000 1 0\n1 2 1\n1000000 1 1\nset margin 1 1\nbase 10 10\nratio 1000000\nblocks 2\n0 500000 1 2\n1 1 0 0\n0 0 0 1\n1 0 0 1\nplus 1 0\nminus 0 1\n1 500000 1 2\n1 1 0 0\n0 0 0 1\n1 0 0 1\nplus 0 1\nminus 1 0\nend\n"
        }
        Sample::Box => {
            "yates-ratio 2\nnodes 3\na\nb\nc\nlinks 4\n0 2 10 1\n1 2 10 1\n0 1 10 1\n1 0 10 1\npairs 2\n0 2 1\n1000000 1 0\n1 2 1\n1000000 1 1\nset box\nlower 10 5\nupper 40 20\nratio 1000000\nblocks 2\n0 500000 1 2\n1 1 0 0\n0 0 0 1\n1 0 0 1\nplus 1 0\nminus 0 1\n1 500000 1 0\n1 1 0 0\nplus 0 1\nminus 1 0\nend\n"
        }
    }
}

// The fault of a rule, by its number and its place.
macro_rules! rule {
    ($number:literal, $place:literal) => {
        CertFault::Rule(RuleFault {
            number: $number,
            place: $place,
        })
    };
}

// A line by its number, and what stands there in its place.
type Change<'a> = (usize, &'a str);

// A file, what is changed in it, and the fault, if any.
#[derive(Clone, Copy)]
struct ChangedFile<'a>(Sample, &'a [Change<'a>], Option<CertFault>);

const HEADS: &[ChangedFile] = &[
    // Nothing is changed, and the file is a certificate.
    ChangedFile(Sample::Parallel, &[], None),
    ChangedFile(Sample::Triangle, &[], None),
    ChangedFile(Sample::Margin, &[], None),
    ChangedFile(Sample::Box, &[], None),
    // A line of the head of two parallel links.
    ChangedFile(Sample::Parallel, &[(1, "yates-ratio 3")], Some(Shape(1))),
    ChangedFile(Sample::Parallel, &[(1, "yates-ratio 2")], None),
    ChangedFile(Sample::Parallel, &[(1, "yates-ratio 2 ")], Some(Shape(1))),
    ChangedFile(Sample::Parallel, &[(1, "x")], Some(Shape(1))),
    ChangedFile(Sample::Parallel, &[(2, "nodes 65")], Some(Shape(2))),
    ChangedFile(Sample::Parallel, &[(2, "nodes 3")], Some(Shape(5))),
    ChangedFile(Sample::Parallel, &[(4, "a")], Some(rule!(1, 1))),
    ChangedFile(Sample::Parallel, &[(5, "links 513")], Some(Shape(5))),
    ChangedFile(
        Sample::Parallel,
        &[(6, "0 4294967296 10 1")],
        Some(rule!(2, 0)),
    ),
    ChangedFile(Sample::Parallel, &[(8, "pairs 4032")], Some(Shape(12))),
    ChangedFile(Sample::Parallel, &[(9, "0 0 2")], Some(rule!(3, 0))),
    ChangedFile(Sample::Parallel, &[(10, "500000 1 1")], Some(rule!(5, 0))),
    ChangedFile(Sample::Parallel, &[(11, "499999 1 1")], Some(rule!(6, 0))),
    ChangedFile(Sample::Parallel, &[(12, "set any")], Some(Shape(12))),
    ChangedFile(
        Sample::Parallel,
        &[(13, "ratio 10000000000000000000")],
        Some(rule!(8, 0)),
    ),
    ChangedFile(
        Sample::Parallel,
        &[(13, "ratio 18446744073709551616")],
        Some(Shape(13)),
    ),
];

const BLOCKS: &[ChangedFile] = &[
    // A line of the blocks of two parallel links.
    ChangedFile(Sample::Parallel, &[(14, "blocks 1")], Some(Shape(18))),
    ChangedFile(Sample::Parallel, &[(14, "blocks 3")], Some(Shape(21))),
    ChangedFile(Sample::Parallel, &[(14, "blocks 513")], Some(Shape(14))),
    ChangedFile(Sample::Parallel, &[(15, "1 500000 1 1")], Some(rule!(8, 2))),
    ChangedFile(
        Sample::Parallel,
        &[(15, "4294967296 500000 1 1")],
        Some(rule!(8, 1)),
    ),
    ChangedFile(Sample::Parallel, &[(15, "0 500000 1 64")], Some(Shape(18))),
    ChangedFile(Sample::Parallel, &[(15, "0 500000 1 65")], Some(Shape(15))),
    ChangedFile(Sample::Parallel, &[(15, "0 500000 0 1")], Some(rule!(8, 1))),
    ChangedFile(
        Sample::Parallel,
        &[(15, "0 68719476737 1 1")],
        Some(rule!(8, 1)),
    ),
    ChangedFile(Sample::Parallel, &[(16, "268435457 1")], Some(rule!(9, 0))),
    ChangedFile(Sample::Parallel, &[(16, "01 1")], Some(Shape(16))),
    ChangedFile(Sample::Parallel, &[(16, "1")], Some(Shape(16))),
    ChangedFile(Sample::Parallel, &[(16, "1 1 1")], Some(Shape(16))),
    ChangedFile(Sample::Parallel, &[(17, "2 0 1")], Some(rule!(9, 0))),
    ChangedFile(
        Sample::Parallel,
        &[(17, "0 0 68719476737")],
        Some(rule!(9, 0)),
    ),
    ChangedFile(Sample::Parallel, &[(18, "0 500000 1 1")], Some(rule!(8, 2))),
    ChangedFile(Sample::Parallel, &[(19, "1 268435457")], Some(rule!(9, 1))),
    ChangedFile(Sample::Parallel, &[(20, "0  1")], Some(Shape(20))),
    ChangedFile(Sample::Parallel, &[(21, "end ")], Some(Shape(21))),
    ChangedFile(Sample::Parallel, &[(21, "ended")], Some(Shape(21))),
    ChangedFile(Sample::Parallel, &[(19, "1 01")], Some(Shape(19))),
];

const SETS: &[ChangedFile] = &[
    // A line of three nodes and all matrices.
    ChangedFile(
        Sample::Triangle,
        &[(19, "0 1000000 1 2")],
        Some(rule!(8, 2)),
    ),
    ChangedFile(Sample::Triangle, &[(21, "3 0 0 1")], Some(rule!(9, 0))),
    ChangedFile(Sample::Triangle, &[(25, "1 0 1 0")], Some(rule!(8, 3))),
    // A line of a margin.
    ChangedFile(Sample::Margin, &[(16, "set box")], Some(Shape(16))),
    ChangedFile(Sample::Margin, &[(16, "set margin 1 2")], Some(rule!(7, 0))),
    ChangedFile(
        Sample::Margin,
        &[(17, "base 10 4294967297")],
        Some(rule!(7, 2)),
    ),
    ChangedFile(Sample::Margin, &[(24, "plus 1")], Some(Shape(24))),
    ChangedFile(
        Sample::Margin,
        &[(25, "minus 68719476737 1")],
        Some(rule!(9, 0)),
    ),
    // A line of a box.
    ChangedFile(Sample::Box, &[(1, "yates-ratio 1")], Some(Shape(16))),
    ChangedFile(Sample::Box, &[(2, "nodes 129")], Some(Shape(2))),
    ChangedFile(Sample::Box, &[(16, "set margin 1 1")], Some(Shape(16))),
    ChangedFile(Sample::Box, &[(17, "lower 41 5")], Some(rule!(7, 1))),
    ChangedFile(
        Sample::Box,
        &[(18, "upper 40 4503599627370497")],
        Some(rule!(7, 2)),
    ),
    ChangedFile(Sample::Box, &[(20, "blocks 1025")], Some(Shape(20))),
    ChangedFile(Sample::Box, &[(21, "0 500000 1 128")], Some(Shape(25))),
    ChangedFile(Sample::Box, &[(25, "plus 0 1 0")], Some(Shape(25))),
    ChangedFile(
        Sample::Box,
        &[(26, "minus 0 68719476737")],
        Some(rule!(9, 0)),
    ),
];

// The line of this number as the changes leave it.
fn changed_line<'a>(line: &'a str, number: usize, changes: &[Change<'a>]) -> &'a str {
    for change in changes {
        if change.0 == number {
            return change.1;
        }
    }
    line
}

// Writes the lines of a file as the changes leave them.
fn write_changed(
    text: &mut String,
    file: &'static str,
    changes: &[Change<'static>],
) -> Result<(), AllocError> {
    let mut number: usize = 0;
    for line in file.lines() {
        number = number.saturating_add(1);
        text.push_str(changed_line(line, number, changes))?;
        text.push('\n')?;
    }
    Ok(())
}

// The file as the changes leave it.
fn changed(
    alloc: Global,
    sample: Sample,
    changes: &[Change<'static>],
) -> Result<String, AllocError> {
    let mut text = String::new(alloc);
    match write_changed(&mut text, text_of(sample), changes) {
        Ok(()) => Ok(text),
        Err(fault) => Err(fault),
    }
}

fn fault_of(alloc: Global, bytes: &[u8]) -> Option<CertFault> {
    read(alloc, bytes).err()
}

// Whether the certificate is printed as this text.
fn is_printed(alloc: Global, cert: &Certificate, text: &[u8]) -> bool {
    match print(alloc, cert) {
        Ok(bytes) => bytes.as_slice() == text,
        Err(_) => false,
    }
}

// Whether the block stands at that place of the list.
fn is_block_at(block: &Block, blocks: &[Block], place: usize) -> bool {
    match blocks.get(place) {
        Some(other) => is_same_block(block, other),
        None => false,
    }
}

// Whether a reader hands out these blocks before its end, or the fault to which it comes.
fn hands_out<D: Depot>(
    depot: &mut D,
    reader: &mut BlockReader,
    blocks: &[Block],
) -> Result<bool, StreamFault> {
    let mut same = true;
    for place in 0..1025 {
        match reader.next(depot) {
            Ok(true) => same = is_block_at(reader.block(), blocks, place) && same,
            Ok(false) => return Ok(same && place == blocks.len()),
            Err(fault) => return Err(fault),
        }
    }
    Ok(false)
}

// What a reader answers that has come to its end or to this fault.
fn over_after(answer: Result<bool, StreamFault>) -> Result<bool, StreamFault> {
    match answer {
        Ok(_) => Ok(false),
        Err(fault) => Err(fault),
    }
}

// The same, where the reader then tells its end or its fault again and reads no more.
fn hands_out_and_stays(
    depot: &mut RecordDepot<MemDepot>,
    reader: &mut BlockReader,
    blocks: &[Block],
) -> Result<bool, StreamFault> {
    let answer = hands_out(depot, reader, blocks);
    let reads = depot.reads().len();
    let stays = reader.next(depot) == over_after(answer);
    if stays & (depot.reads().len() == reads) {
        answer
    } else {
        Ok(false)
    }
}

// The blocks of the certificate that the bytes spell, or none.
fn blocks_of(alloc: Global, bytes: &[u8]) -> Items<Block> {
    match read(alloc, bytes) {
        Ok(cert) => cert.blocks,
        Err(_) => Items::new(Vec::new(alloc)),
    }
}

// Whether the reader hands out the blocks of a certificate that is printed as these bytes, or the fault.
fn is_handed_out(
    alloc: Global,
    depot: &mut RecordDepot<MemDepot>,
    reader: &mut BlockReader,
    cert: &Certificate,
    bytes: &[u8],
) -> Result<bool, StreamFault> {
    let answer = hands_out_and_stays(depot, reader, cert.blocks.as_slice());
    let printed = is_printed(alloc, cert, bytes);
    match answer {
        Ok(same) => Ok(same & printed),
        Err(fault) => Err(fault),
    }
}

// Whether this head and the blocks that the reader hands out are the certificate of these bytes, or the fault.
fn is_streamed(
    alloc: Global,
    depot: &mut RecordDepot<MemDepot>,
    reader: &mut BlockReader,
    head: Head,
    bytes: &[u8],
) -> Result<bool, StreamFault> {
    let cert = Certificate {
        head,
        blocks: blocks_of(alloc, bytes),
    };
    is_handed_out(alloc, depot, reader, &cert, bytes)
}

// The same of the file in a depot.
fn streamed(
    alloc: Global,
    depot: &mut RecordDepot<MemDepot>,
    bytes: &[u8],
) -> Result<bool, StreamFault> {
    match BlockReader::open(alloc, depot, "file") {
        Ok((mut reader, head)) => is_streamed(alloc, depot, &mut reader, head, bytes),
        Err(fault) => Err(fault),
    }
}

// The same of a file of which reads give so many bytes at once, and the read of that number fails.
fn streamed_in_pieces(
    alloc: Global,
    bytes: &[u8],
    piece: usize,
    failing: u64,
) -> Result<bool, StreamFault> {
    match file_of(alloc, bytes, piece, failing) {
        Ok(mut depot) => streamed(alloc, &mut depot, bytes),
        Err(_) => Err(StreamFault::Memory),
    }
}

// What the reader of blocks answers where this is the fault of the file, or its certificate is handed out.
fn answer_of(fault: Option<CertFault>) -> Result<bool, StreamFault> {
    match fault {
        None => Ok(true),
        Some(Shape(line)) => Err(StreamFault::Shape(line)),
        Some(CertFault::Rule(rule)) => Err(StreamFault::Rule(rule)),
        Some(CertFault::Memory) => Err(StreamFault::Memory),
    }
}

// Whether this is what both readers answer of a file, of which reads give so many bytes at once.
fn is_answered(alloc: Global, bytes: &[u8], piece: usize, fault: Option<CertFault>) -> bool {
    fault_of(alloc, bytes) == fault
        && streamed_in_pieces(alloc, bytes, piece, NEVER) == answer_of(fault)
}

fn is_answered_in_all_pieces(alloc: Global, bytes: &[u8], fault: Option<CertFault>) -> bool {
    for piece in [1, 2, 3, 7, 64] {
        if !is_answered(alloc, bytes, piece, fault) {
            return false;
        }
    }
    true
}

impl Case for ChangedFile<'static> {
    fn holds(&self, alloc: Global) -> bool {
        let ChangedFile(sample, changes, fault) = *self;
        match changed(alloc, sample, changes) {
            Ok(text) => is_answered_in_all_pieces(alloc, text.as_bytes(), fault),
            Err(_) => false,
        }
    }
}

#[test]
fn both_readers_give_the_same_certificates_and_faults_of_heads(rt: HostRuntime) {
    all_hold(&rt, rt.alloc(), HEADS);
}

#[test]
fn both_readers_give_the_same_faults_of_blocks(rt: HostRuntime) {
    all_hold(&rt, rt.alloc(), BLOCKS);
}

#[test]
fn both_readers_give_the_same_faults_of_sets(rt: HostRuntime) {
    all_hold(&rt, rt.alloc(), SETS);
}

// Two faults, of which the one that is told stands beside them.
const TWO_FAULTS: &[ChangedFile] = &[
    // The least rule, of whatever blocks.
    ChangedFile(
        Sample::Parallel,
        &[(16, "268435457 1"), (18, "0 500000 1 1")],
        Some(rule!(8, 2)),
    ),
    ChangedFile(
        Sample::Parallel,
        &[(17, "0 0 68719476737"), (18, "1 500000 0 1")],
        Some(rule!(8, 2)),
    ),
    ChangedFile(
        Sample::Parallel,
        &[(16, "268435457 1"), (19, "268435457 1")],
        Some(rule!(9, 0)),
    ),
    ChangedFile(
        Sample::Parallel,
        &[(13, "ratio 10000000000000000000"), (18, "1 500000 0 1")],
        Some(rule!(8, 0)),
    ),
    ChangedFile(
        Sample::Parallel,
        &[(4, "a"), (18, "1 500000 0 1")],
        Some(rule!(1, 1)),
    ),
    // A line that leaves the format, before a rule.
    ChangedFile(
        Sample::Parallel,
        &[(16, "268435457 1"), (21, "end\n")],
        Some(Shape(22)),
    ),
    ChangedFile(
        Sample::Parallel,
        &[(13, "ratio 1999999"), (21, "end\nx")],
        Some(Shape(22)),
    ),
    ChangedFile(Sample::Parallel, &[(4, "a"), (19, "1 01")], Some(Shape(19))),
    ChangedFile(
        Sample::Parallel,
        &[(16, "268435457 1"), (19, "1 01")],
        Some(Shape(19)),
    ),
];

#[test]
fn the_first_of_two_faults_is_told(rt: HostRuntime) {
    all_hold(&rt, rt.alloc(), TWO_FAULTS);
}

// The length of the first beginning of a file, of those that end with or before the end of a line, of which the readers do
// not tell the line in which it ends.
fn wrong_cut(alloc: Global, bytes: &[u8]) -> Option<usize> {
    let mut line: u64 = 1;
    let mut begins = true;
    for length in 0..bytes.len() {
        let ends = bytes[length] == b'\n';
        if (begins || ends) && !is_answered(alloc, &bytes[..length], 64, Some(Shape(line))) {
            return Some(length);
        }
        if ends {
            line = line.saturating_add(1);
        }
        begins = ends;
    }
    None
}

#[test]
fn files_may_end_anywhere(rt: HostRuntime) {
    let text = text_of(Sample::Box);
    assert!(rt; wrong_cut(rt.alloc(), text.as_bytes()).is_none());
}

// How many reads a file takes in pieces of 25 bytes.
fn count_of_reads(alloc: Global, bytes: &[u8]) -> Result<u64, StreamFault> {
    match file_of(alloc, bytes, 25, NEVER) {
        Ok(mut depot) => {
            let _answer = streamed(alloc, &mut depot, bytes);
            Ok(depot.reads().len() as u64)
        }
        Err(_) => Err(StreamFault::Memory),
    }
}

// Whether each read that fails is told, and one past the last that the file takes changes nothing.
fn are_failures_told(
    alloc: Global,
    bytes: &[u8],
    fault: Option<CertFault>,
) -> Result<bool, StreamFault> {
    let reads = count_of_reads(alloc, bytes)?;
    for failing in 0..reads {
        if streamed_in_pieces(alloc, bytes, 25, failing) != Err(StreamFault::Failed) {
            return Ok(false);
        }
    }
    Ok(streamed_in_pieces(alloc, bytes, 25, reads) == answer_of(fault))
}

// The fault of two parallel links that are changed so: none, one of a block, one of the head, and two that leave the format.
struct FailingRead<'a>(&'a [Change<'a>], Option<CertFault>);

const FAILING_READS: &[FailingRead] = &[
    FailingRead(&[], None),
    FailingRead(&[(16, "268435457 1")], Some(rule!(9, 0))),
    FailingRead(&[(4, "a")], Some(rule!(1, 1))),
    FailingRead(&[(1, "x")], Some(Shape(1))),
    FailingRead(&[(19, "1 01")], Some(Shape(19))),
];

impl Case for FailingRead<'static> {
    fn holds(&self, alloc: Global) -> bool {
        match changed(alloc, Sample::Parallel, self.0) {
            Ok(text) => are_failures_told(alloc, text.as_bytes(), self.1) == Ok(true),
            Err(_) => false,
        }
    }
}

#[test]
fn a_read_that_fails_is_told(rt: HostRuntime) {
    all_hold(&rt, rt.alloc(), FAILING_READS);
}
