//! Reading the files of hoses and of hose certificates.
ghost use Rattle.std.specs.Prelude.{◌≡◌, ◌^◌, ◌<◌, ◌++◌, List, [], ◌∷◌, IfOk, OnOk, codes};
ghost use Rattle.te_model.specs.Network.{node_count, link_count};
ghost use Rattle.cert_text.specs.Reading.{narrow_number};
ghost use Rattle.number_tables.specs.declared.line.NumLine.{NumLine};
ghost use Rattle.number_tables.specs.TakingDue.{IsBefore, TakesDue, LeavesAtLine};
ghost use Rattle.hose_bound.specs.Files.{is_block_count};
ghost use Rattle.hose_bound.specs.Lines.{BeginsWithBlock, BeginsWithBlockCount, BeginsWithBlocks, BeginsWithHose, LeavesAtBlock, LeavesAtBlocks, LeavesAtHose};
ghost use Rattle.hose_bound.specs.Reading.{GivesHose, GivesHoseCert, SpellsHoseOrFault, SpellsKeptCert};
ghost use Rattle.hose_bound.specs.Rules.{IsValidHose, IsValidHoseCert};

use crate::fault::HoseFault;
use crate::hose::{Hose, HoseBlock, HoseCert};
use crate::rules::{hose_cert_fault, hose_fault};
use number_tables::{DueLines, TableFault};
use std::alloc::Global;
use te_model::{FORMAT_2, Items, Memory, Network, number_at};

// The lines of a hose.
fn take_hose<'a>(alloc: Global, lines: &mut DueLines<'a>, nodes: usize) -> Result<Hose, TableFault>
    ensures { (ls : List NumLine) → IsBefore lines.old ls →
        TakesDue (BeginsWithHose nodes) (LeavesAtHose nodes) result lines.old lines.new ls }
{
    let sent = lines.numbers(alloc, b"sent", nodes)?;
    let received = lines.numbers(alloc, b"received", nodes)?;
    Ok(Hose { sent, received })
}

// A link number, or the greatest that a field holds in place of a larger one; no network has such a link.
fn narrow(number: u64) -> u32
    ensures { result ≡ narrow_number number }
{
    number.min(u64::from(u32::MAX)) as u32
}

// The lines of a block.
fn take_block<'a>(
    alloc: Global,
    lines: &mut DueLines<'a>,
    nodes: usize,
) -> Result<HoseBlock, TableFault>
    ensures { (ls : List NumLine) → IsBefore lines.old ls →
        TakesDue (BeginsWithBlock nodes) (LeavesAtBlock nodes) result lines.old lines.new ls }
{
    let link = lines.number(alloc, b"link")?;
    let tails = lines.numbers(alloc, b"tails", nodes)?;
    let heads = lines.numbers(alloc, b"heads", nodes)?;
    Ok(HoseBlock {
        link: narrow(link),
        tails,
        heads,
    })
}

fn is_block_count(numbers: &[u64]) -> bool
    ensures { result ≡ is_block_count numbers.now }
{
    numbers.len() == 1 && number_at(numbers, 0) <= FORMAT_2.links
}

// How many blocks there are.
fn take_block_count<'a>(alloc: Global, lines: &mut DueLines<'a>) -> Result<u64, TableFault>
    ensures { (ls : List NumLine) → IsBefore lines.old ls →
        TakesDue BeginsWithBlockCount (LeavesAtLine (codes "blocks") is_block_count) result lines.old lines.new ls }
{
    let line = lines.line();
    let numbers = lines.word_numbers(alloc, b"blocks")?;
    let list = numbers.as_slice();
    if is_block_count(list) {
        Ok(number_at(list, 0))
    } else {
        Err(TableFault::Shape(line))
    }
}

fn push_block(list: &mut Vec<HoseBlock>, block: HoseBlock) -> Result<(), Memory>
    ensures { OnOk result (list.new.items ≡ list.old.items ++ block ∷ []) }
{
    list.push(block)?;
    Ok(())
}

// So many blocks.
fn take_blocks<'a>(
    alloc: Global,
    lines: &mut DueLines<'a>,
    nodes: usize,
    count: u64,
) -> Result<Items<HoseBlock>, TableFault>
    ensures { (ls : List NumLine) → IsBefore lines.old ls →
        TakesDue (BeginsWithBlocks nodes count) (LeavesAtBlocks nodes count) result lines.old lines.new ls }
{
    let mut list = Vec::new(alloc);
    for _ in 0..count {
        let block = take_block(alloc, lines, nodes)?;
        push_block(&mut list, block)?;
    }
    Ok(Items::new(list))
}

// The hose of so many nodes that the bytes spell.
fn spelled_hose(alloc: Global, nodes: usize, bytes: &[u8]) -> Result<Hose, TableFault>
    ensures { SpellsHoseOrFault nodes bytes.now result }
{
    let mut lines = DueLines::new(alloc, b"yates-bounds 1", bytes)?;
    let hose = take_hose(alloc, &mut lines, nodes)?;
    lines.end(alloc)?;
    Ok(hose)
}

// The hose certificate for so many nodes that the bytes spell, with the links that are kept.
fn spelled_cert(alloc: Global, nodes: usize, bytes: &[u8]) -> Result<HoseCert, TableFault>
    ensures { SpellsKeptCert nodes bytes.now result }
{
    let mut lines = DueLines::new(alloc, b"yates-hose 1", bytes)?;
    let hose = take_hose(alloc, &mut lines, nodes)?;
    let bound = lines.number(alloc, b"bound")?;
    let count = take_block_count(alloc, &mut lines)?;
    let blocks = take_blocks(alloc, &mut lines, nodes, count)?;
    lines.end(alloc)?;
    Ok(HoseCert {
        hose,
        bound,
        blocks,
    })
}

/// Reads the file of a hose of the network: a table with the first line `yates-bounds 1`, a line `sent` and a line
/// `received`, each with a number for each node.
///
/// # Errors
///
/// The answer is determined by the bytes, want of memory aside:
///
/// - `Shape(line)`: the first line at which the bytes leave the tables, or else the files of hoses of this network;
/// - `Rule(fault)`: the bytes are such a file, and this is the first place at which K1 fails;
/// - `Memory`, where memory runs out.
pub fn read_bounds(alloc: Global, net: &Network, bytes: &[u8]) -> Result<Hose, HoseFault>
    requires nodes { node_count net.now < 2 ^ 32 }
    ensures hose { GivesHose net.now bytes.now result }
    ensures valid { IfOk result (IsValidHose (node_count net.now)) }
{
    let nodes = net.names.as_slice().len();
    let hose = spelled_hose(alloc, nodes, bytes)?;
    match hose_fault(nodes, &hose) {
        None => Ok(hose),
        Some(fault) => Err(HoseFault::Rule(fault)),
    }
}

/// Reads the file of a hose certificate of the network: a table with the first line `yates-hose 1`, the lines of a hose, the
/// lines `bound` and `blocks` with a number each, of which the second is at most 1,024, and for each block a line `link` with
/// a number, and a line `tails` and a line `heads` with a number for each node.
///
/// # Errors
///
/// The answer is determined by the bytes, want of memory aside:
///
/// - `Shape(line)`: the first line at which the bytes leave the tables, or else the files of hose certificates of this
///   network;
/// - `Rule(fault)`: the bytes are such a file, and this is the failing rule of the least number, K1 to K4, at its least
///   place;
/// - `Memory`, where memory runs out.
pub fn read(alloc: Global, net: &Network, bytes: &[u8]) -> Result<HoseCert, HoseFault>
    requires nodes { node_count net.now < 2 ^ 32 }
    requires links { link_count net.now < 2 ^ 32 }
    ensures cert { GivesHoseCert net.now bytes.now result }
    ensures valid { IfOk result (IsValidHoseCert net.now) }
{
    let cert = spelled_cert(alloc, net.names.as_slice().len(), bytes)?;
    match hose_cert_fault(net, &cert) {
        None => Ok(cert),
        Some(fault) => Err(HoseFault::Rule(fault)),
    }
}
