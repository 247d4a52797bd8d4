//! The text of a plan.
ghost use Rattle.std.specs.Prelude.{◌≡◌, ◌++◌, ◌∷◌, [], IfOk, OnOk, codes, map};
ghost use Rattle.std.specs.List.{flat_map};
ghost use Rattle.number_tables.specs.Table.{line_text, table_text};
ghost use Rattle.update_plan.specs.Text.{path_line, plan_text};

use crate::path::{UpdatePath, UpdatePlan};
use number_tables::{NumLine, print_line};
use std::alloc::Global;
use te_model::{Items, Memory, Name};

fn add_links(numbers: &mut Vec<u64>, links: &[u32]) -> Result<(), Memory>
    ensures { OnOk result (numbers.new.items ≡ numbers.old.items ++ links.now) }
{
    for link in links {
        numbers.push(u64::from(*link))?;
    }
    Ok(())
}

/// A line of one word and one number.
fn word_line(alloc: Global, word: &str, number: u64) -> Result<NumLine, Memory>
    ensures { IfOk result (λ line. line ≡ record { word = word.now; numbers = number ∷ [] }) }
{
    let word = Name::new(String::from_str(alloc, word)?);
    let numbers = vec![in alloc; number]?;
    Ok(NumLine {
        word,
        numbers: Items::new(numbers),
    })
}

/// The line of a path.
fn path_line(alloc: Global, path: &UpdatePath) -> Result<NumLine, Memory>
    ensures { IfOk result (λ line. line ≡ path_line path.now) }
{
    let links = path.links.as_slice();
    let mut numbers = Vec::with_capacity(alloc, links.len() + 4)?;
    numbers.push(u64::from(path.pair))?;
    numbers.push(path.before)?;
    numbers.push(path.after)?;
    numbers.push(links.len() as u64)?;
    add_links(&mut numbers, links)?;
    Ok(NumLine {
        word: Name::new(String::new(alloc)),
        numbers: Items::new(numbers),
    })
}

/// Puts the lines of the paths at the end of the text, one path after another.
fn print_paths(alloc: Global, out: &mut Vec<u8>, paths: &[UpdatePath]) -> Result<(), Memory>
    ensures { OnOk result (out.new.items ≡ out.old.items ++ flat_map (λ u. line_text (path_line u) ++ 10 ∷ []) paths.now) }
{
    for path in paths {
        print_line(out, &path_line(alloc, path)?)?;
    }
    Ok(())
}

/// Puts the table of the two counts and the paths at the end of the text.
fn print_lines(
    alloc: Global,
    out: &mut Vec<u8>,
    steps: &NumLine,
    count: &NumLine,
    paths: &[UpdatePath],
) -> Result<(), Memory>
    ensures { OnOk result (out.new.items ≡ out.old.items ++ table_text (codes "yates-update 1") (steps.now ∷ count.now ∷ map path_line paths.now)) }
{
    out.extend_from_slice(b"yates-update 1\n")?;
    print_line(out, steps)?;
    print_line(out, count)?;
    print_paths(alloc, out, paths)?;
    out.extend_from_slice(b"end\n")?;
    Ok(())
}

/// The text of the plan, a table with the first line `yates-update 1`: `steps K`, `paths C`, and for each path its pair, its
/// weights before and after, how many links it has, and these.
///
/// `Memory` comes where memory is wanting.
pub fn print(alloc: Global, plan: &UpdatePlan) -> Result<Vec<u8>, Memory>
    ensures { IfOk result (λ text. text.items ≡ plan_text plan.now) }
{
    let paths = plan.paths.as_slice();
    let steps = word_line(alloc, "steps", u64::from(plan.steps))?;
    let count = word_line(alloc, "paths", paths.len() as u64)?;
    let mut out = Vec::new(alloc);
    print_lines(alloc, &mut out, &steps, &count, paths)?;
    Ok(out)
}
