//! Writing the file of a hose certificate.
ghost use Rattle.std.specs.Prelude.{◌≡◌, ◌++◌, IfOk, OnOk, string_bytes};
ghost use Rattle.std.specs.List.{flat_map};
ghost use Rattle.number_tables.specs.Due.{word_line};
ghost use Rattle.hose_bound.specs.Files.{hose_block_lines, hose_cert_lines, hose_cert_text};

use crate::hose::{HoseBlock, HoseCert};
use number_tables::{NumLine, print_table};
use std::alloc::Global;
use te_model::Memory;

fn line(alloc: Global, word: &str, numbers: &[u64]) -> Result<NumLine, Memory>
    ensures { IfOk result (λ l. l ≡ word_line word.now numbers.now) }
{
    NumLine::new(alloc, word, Vec::from_slice(alloc, numbers)?)
}

// The lines of the block.
fn push_block(alloc: Global, lines: &mut Vec<NumLine>, block: &HoseBlock) -> Result<(), Memory>
    ensures { OnOk result (lines.new.items ≡ lines.old.items ++ hose_block_lines block.now) }
{
    lines.push(line(alloc, "link", &[u64::from(block.link)])?)?;
    lines.push(line(alloc, "tails", block.tails.as_slice())?)?;
    lines.push(line(alloc, "heads", block.heads.as_slice())?)?;
    Ok(())
}

// The lines of the blocks.
fn push_blocks(alloc: Global, lines: &mut Vec<NumLine>, blocks: &[HoseBlock]) -> Result<(), Memory>
    ensures { OnOk result (lines.new.items ≡ lines.old.items ++ flat_map hose_block_lines blocks.now) }
{
    for block in blocks {
        push_block(alloc, lines, block)?;
    }
    Ok(())
}

fn cert_lines(alloc: Global, cert: &HoseCert) -> Result<Vec<NumLine>, Memory>
    ensures { IfOk result (λ lines. lines.items ≡ hose_cert_lines cert.now) }
{
    let blocks = cert.blocks.as_slice();
    let mut lines = Vec::new(alloc);
    lines.push(line(alloc, "sent", cert.hose.sent.as_slice())?)?;
    lines.push(line(alloc, "received", cert.hose.received.as_slice())?)?;
    lines.push(line(alloc, "bound", &[cert.bound])?)?;
    lines.push(line(alloc, "blocks", &[blocks.len() as u64])?)?;
    push_blocks(alloc, &mut lines, blocks)?;
    Ok(lines)
}

/// The text of the hose certificate, of which [`read`](crate::read) gives it back.
///
/// # Errors
///
/// Only `Memory`, where memory runs out.
pub fn print(alloc: Global, cert: &HoseCert) -> Result<Vec<u8>, Memory>
    ensures { IfOk result (λ file. file.items ≡ hose_cert_text cert.now) }
{
    let lines = cert_lines(alloc, cert)?;
    print_table(alloc, b"yates-hose 1", lines.as_slice())
}
