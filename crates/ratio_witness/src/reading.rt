//! Reading the file of a witness.
ghost use Rattle.std.specs.Prelude.{◌≡◌, ℕ, ◌≤◌, List, [], ◌∷◌, ◌++◌, Ok, Err, Some, None, IfOk, OnOk, MatchResult, drop, length, map, slice_index};
ghost use Rattle.te_model.specs.Validity.{IsValidHead};
ghost use Rattle.cert_text.specs.Reading.{narrow_number};
ghost use Rattle.number_tables.specs.declared.line.NumLine.{NumLine};
ghost use Rattle.number_tables.specs.Due.{LeavesSmallFiles};
ghost use Rattle.number_tables.specs.TakingDue.{IsBefore, LeavesAtLine, TakesDue};
ghost use Rattle.ratio_witness.specs.Outcome.{IsDueOrMemory};
ghost use Rattle.ratio_witness.specs.Reading.{BeginsWithPair, BeginsWithPath, BeginsWithPathCount, BeginsWithPaths, BeginsWithRival, BeginsWithWitness, LeavesAtPair, LeavesAtPaths, LeavesAtRival, LeavesAtWitness, SpellsWitness};
ghost use Rattle.ratio_witness.specs.Rules.{witness_fault};
ghost use Rattle.ratio_witness.specs.Text.{is_path_count, is_path_line, witness_due, witness_first, witness_text, IsWitnessOf, IsWitnessRuleFault};

use crate::fault::WitnessFault;
use crate::printing::first_line;
use crate::rules::witness_fault;
use crate::witness::Witness;
use number_tables::{DueLines, TableFault};
use std::alloc::Global;
use te_model::{FORMAT_2, Head, Items, Matrix, Memory, PathShare, RuleFault, number_at};

fn is_path_count(numbers: &[u64]) -> bool
    ensures { result ≡ is_path_count numbers.now }
{
    numbers.len() == 1 && number_at(numbers, 0) <= FORMAT_2.paths
}

fn is_path_line(numbers: &[u64]) -> bool
    ensures { result ≡ is_path_line numbers.now }
{
    let count = number_at(numbers, 1);
    1 <= count && count <= FORMAT_2.hops && numbers.len() as u64 == 2 + count
}

// How many paths a pair has.
fn path_count<'a>(lines: &mut DueLines<'a>, alloc: Global) -> Result<u64, TableFault>
    ensures { (ls : List NumLine) → IsBefore lines.old ls →
        TakesDue BeginsWithPathCount (LeavesAtLine [] is_path_count) result lines.old lines.new ls }
{
    let line = lines.line();
    let numbers = lines.word_numbers(alloc, b"")?;
    let list = numbers.as_slice();
    if is_path_count(list) {
        Ok(number_at(list, 0))
    } else {
        Err(TableFault::Shape(line))
    }
}

// A link number, or the greatest that a field holds in place of a larger one; no network has such a link.
fn narrow(number: u64) -> u32
    ensures { result ≡ narrow_number number }
{
    number.min(u64::from(u32::MAX)) as u32
}

fn narrow_links(alloc: Global, numbers: &[u64]) -> Result<Items<u32>, Memory>
    ensures { IfOk result (λ links. links ≡ map narrow_number numbers.now) }
{
    let mut links = Vec::with_capacity(alloc, numbers.len())?;
    for number in numbers {
        links.push(narrow(*number))?;
    }
    Ok(Items::new(links))
}

// The path that a line of numbers spells.
fn path_of_numbers(alloc: Global, numbers: &[u64]) -> Result<PathShare, Memory>
    requires { 2 ≤ length numbers.now }
    ensures { IfOk result (λ path. path ≡ record { links = map narrow_number (drop 2 numbers.now); weight = slice_index numbers.now 0 }) }
{
    let links = narrow_links(alloc, &numbers[2..])?;
    Ok(PathShare {
        links,
        weight: number_at(numbers, 0),
    })
}

// A path with its weight.
fn path_share<'a>(lines: &mut DueLines<'a>, alloc: Global) -> Result<PathShare, TableFault>
    ensures { (ls : List NumLine) → IsBefore lines.old ls →
        TakesDue BeginsWithPath (LeavesAtLine [] is_path_line) result lines.old lines.new ls }
{
    let line = lines.line();
    let numbers = lines.word_numbers(alloc, b"")?;
    let list = numbers.as_slice();
    if is_path_line(list) {
        Ok(path_of_numbers(alloc, list)?)
    } else {
        Err(TableFault::Shape(line))
    }
}

// Puts the item at the end of the list.
fn push<T: Drop>(list: &mut Vec<T>, item: T) -> Result<(), Memory>
    ensures { OnOk result (list.new.items ≡ list.old.items ++ item ∷ []) }
{
    list.push(item)?;
    Ok(())
}

// So many paths.
fn paths<'a>(
    lines: &mut DueLines<'a>,
    alloc: Global,
    count: u64,
) -> Result<Items<PathShare>, TableFault>
    ensures { (ls : List NumLine) → IsBefore lines.old ls →
        TakesDue (BeginsWithPaths count) (LeavesAtPaths count) result lines.old lines.new ls }
{
    let mut paths = Vec::new(alloc);
    for _ in 0..count {
        let path = path_share(lines, alloc)?;
        push(&mut paths, path)?;
    }
    Ok(Items::new(paths))
}

// The paths of a pair, behind their number.
fn pair_paths<'a>(lines: &mut DueLines<'a>, alloc: Global) -> Result<Items<PathShare>, TableFault>
    ensures { (ls : List NumLine) → IsBefore lines.old ls →
        TakesDue BeginsWithPair LeavesAtPair result lines.old lines.new ls }
{
    let count = path_count(lines, alloc)?;
    paths(lines, alloc, count)
}

// The paths of so many pairs.
fn rival<'a>(
    lines: &mut DueLines<'a>,
    alloc: Global,
    pairs: usize,
) -> Result<Items<Items<PathShare>>, TableFault>
    ensures { (ls : List NumLine) → IsBefore lines.old ls →
        TakesDue (BeginsWithRival pairs) (LeavesAtRival pairs) result lines.old lines.new ls }
{
    let mut rival = Vec::new(alloc);
    for _ in 0..pairs {
        let paths = pair_paths(lines, alloc)?;
        push(&mut rival, paths)?;
    }
    Ok(Items::new(rival))
}

// What a table says as a witness of so many pairs, whether or not its rules hold.
fn witness_of_lines<'a>(
    lines: &mut DueLines<'a>,
    alloc: Global,
    pairs: usize,
) -> Result<Witness, TableFault>
    ensures { (ls : List NumLine) → IsBefore lines.old ls →
        TakesDue (BeginsWithWitness pairs) (LeavesAtWitness pairs) result lines.old lines.new ls }
{
    let bound = lines.number(alloc, b"bound")?;
    let scale = lines.numbers(alloc, b"scale", 2)?;
    let demand = lines.numbers(alloc, b"demand", pairs)?;
    let rival = rival(lines, alloc, pairs)?;
    lines.end(alloc)?;
    Ok(Witness {
        bound,
        x: number_at(scale.as_slice(), 0),
        y: number_at(scale.as_slice(), 1),
        demand: Matrix { demand },
        rival,
    })
}

// The witness of so many pairs of which the bytes are the file, whether or not its rules hold.
fn witness_of_file(alloc: Global, bytes: &[u8], pairs: usize) -> Result<Witness, TableFault>
    ensures { SpellsWitness pairs result bytes.now }
{
    let mut lines = DueLines::new(alloc, first_line(), bytes)?;
    witness_of_lines(&mut lines, alloc, pairs)
}

// Gives the witness back if its rules hold.
fn keep_ruled(head: &Head, witness: Witness) -> Result<Witness, WitnessFault>
    ensures { MatchResult result (λ w. (w ≡ witness) × (witness_fault head.now witness ≡ None))
        (λ e. (f : RuleFault) × (e ≡ WitnessFault.Rule f) × (witness_fault head.now witness ≡ Some f)) }
{
    match witness_fault(head, &witness) {
        Some(fault) => Err(WitnessFault::Rule(fault)),
        None => Ok(witness),
    }
}

/// Reads the file of a witness for a certificate's head. The answer is determined by the bytes:
///
/// - the witness, where it keeps its rules and the bytes are its text;
/// - `Shape(line)`, where the bytes are no file of witnesses of so many pairs: the first line, counted from 1, at which they
///   leave the tables, or else, of a table, the first that is not due;
/// - `Rule(fault)`, where the file has the right shape and a rule fails: the failing rule of the least number, at its least
///   place;
/// - `Memory`, where memory runs out.
///
/// Beside the bytes it takes no more memory than what it keeps and one line of the file.
pub fn read(alloc: Global, head: &Head, bytes: &[u8]) -> Result<Witness, WitnessFault>
    requires { IsValidHead head.now }
    ensures spelled { IfOk result (λ w. IsWitnessOf head.now w × (bytes.now ≡ witness_text w)) }
    ensures accepted { (w : Witness) → IsWitnessOf head.now w → bytes.now ≡ witness_text w → IsDueOrMemory result (Ok w) }
    ensures shape { (k : ℕ) → result ≡ Err (WitnessFault.Shape k) →
        LeavesSmallFiles witness_first (witness_due (length head.now.routes)) bytes.now k }
    ensures misshaped { (k : ℕ) → LeavesSmallFiles witness_first (witness_due (length head.now.routes)) bytes.now k →
        IsDueOrMemory result (Err (WitnessFault.Shape k)) }
    ensures rule { (f : RuleFault) → result ≡ Err (WitnessFault.Rule f) → IsWitnessRuleFault head.now bytes.now f }
    ensures invalid { (f : RuleFault) → IsWitnessRuleFault head.now bytes.now f →
        IsDueOrMemory result (Err (WitnessFault.Rule f)) }
{
    let witness = witness_of_file(alloc, bytes, head.routes.as_slice().len())?;
    keep_ruled(head, witness)
}
