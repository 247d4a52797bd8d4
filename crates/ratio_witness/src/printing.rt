//! Printing a witness.
ghost use Rattle.std.specs.Prelude.{◌≡◌, ◌++◌, ◌∷◌, [], IfOk, OnOk, codes, flat_map, length, map};
ghost use Rattle.number_tables.specs.Due.{word_line};
ghost use Rattle.ratio_witness.specs.Text.{pair_lines, share_line, witness_first, witness_lines, witness_text};

use crate::witness::Witness;
use number_tables::{NumLine, print_table};
use std::alloc::Global;
use te_model::{Items, Memory, PathShare};

/// The first line of a witness.
pub(crate) fn first_line() -> &'static [u8]
    ensures { result.now ≡ witness_first }
{
    b"yates-witness 1"
}

// A line of numbers after a word, which is empty where there is none.
fn line(alloc: Global, word: &str, numbers: &[u64]) -> Result<NumLine, Memory>
    ensures { IfOk result (λ l. l ≡ word_line word.now numbers.now) }
{
    let list = Vec::from_slice(alloc, numbers)?;
    NumLine::new(alloc, word, list)
}

// The numbers of a path: its weight, how many links it has, and these.
fn share_numbers(alloc: Global, path: &PathShare) -> Result<Vec<u64>, Memory>
    ensures { IfOk result (λ ns. ns.items ≡ path.now.weight ∷ length path.now.links ∷ path.now.links) }
{
    let links = path.links.as_slice();
    let mut numbers = vec![in alloc; path.weight, links.len() as u64]?;
    for link in links {
        numbers.push(u64::from(*link))?;
    }
    Ok(numbers)
}

// The line of a path.
fn share_line(alloc: Global, path: &PathShare) -> Result<NumLine, Memory>
    ensures { IfOk result (λ l. l ≡ share_line path.now) }
{
    let numbers = share_numbers(alloc, path)?;
    NumLine::new(alloc, "", numbers)
}

// Adds the lines of paths.
fn add_paths(alloc: Global, lines: &mut Vec<NumLine>, paths: &[PathShare]) -> Result<(), Memory>
    ensures { OnOk result (lines.new.items ≡ lines.old.items ++ map share_line paths.now) }
{
    for path in paths {
        let next = share_line(alloc, path)?;
        lines.push(next)?;
    }
    Ok(())
}

// Adds the lines of a pair: the number of its paths, and each of them.
fn add_pair(alloc: Global, lines: &mut Vec<NumLine>, paths: &[PathShare]) -> Result<(), Memory>
    ensures { OnOk result (lines.new.items ≡ lines.old.items ++ pair_lines paths.now) }
{
    let first = line(alloc, "", &[paths.len() as u64])?;
    lines.push(first)?;
    add_paths(alloc, lines, paths)
}

// Adds the lines of all pairs.
fn add_pairs(
    alloc: Global,
    lines: &mut Vec<NumLine>,
    rival: &[Items<PathShare>],
) -> Result<(), Memory>
    ensures { OnOk result (lines.new.items ≡ lines.old.items ++ flat_map pair_lines rival.now) }
{
    for paths in rival {
        add_pair(alloc, lines, paths.as_slice())?;
    }
    Ok(())
}

// The lines before those of the pairs.
fn first_lines(alloc: Global, witness: &Witness) -> Result<Vec<NumLine>, Memory>
    ensures { IfOk result (λ lines. lines.items ≡ word_line (codes "bound") (witness.now.bound ∷ [])
        ∷ word_line (codes "scale") (witness.now.x ∷ witness.now.y ∷ []) ∷ word_line (codes "demand") witness.now.demand.demand ∷ []) }
{
    let bound = line(alloc, "bound", &[witness.bound])?;
    let scale = line(alloc, "scale", &[witness.x, witness.y])?;
    let demand = line(alloc, "demand", witness.demand.demand.as_slice())?;
    let mut lines = Vec::new(alloc);
    lines.push(bound)?;
    lines.push(scale)?;
    lines.push(demand)?;
    Ok(lines)
}

// The lines of a witness.
fn witness_lines(alloc: Global, witness: &Witness) -> Result<Vec<NumLine>, Memory>
    ensures { IfOk result (λ lines. lines.items ≡ witness_lines witness.now) }
{
    let mut lines = first_lines(alloc, witness)?;
    add_pairs(alloc, &mut lines, witness.rival.as_slice())?;
    Ok(lines)
}

/// Writes the file of a witness, of which [`read`](crate::read) gives the witness back.
///
/// Answers an error only where memory runs out.
pub fn print(alloc: Global, witness: &Witness) -> Result<Vec<u8>, Memory>
    ensures { IfOk result (λ file. file.items ≡ witness_text witness.now) }
{
    let lines = witness_lines(alloc, witness)?;
    print_table(alloc, first_line(), lines.as_slice())
}
