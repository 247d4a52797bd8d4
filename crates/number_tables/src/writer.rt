//! Printing a table: each part is put at the end of one buffer.
ghost use Rattle.std.specs.Prelude.{◌≡◌, ◌++◌, ◌∷◌, [], OnOk, IfOk, decimal};
ghost use Rattle.std.specs.List.{flat_map};
ghost use Rattle.cert_text.specs.Pieces.{with_space};
ghost use Rattle.te_model.specs.Text.{numbers as numbers_text, words};
ghost use Rattle.number_tables.specs.Table.{line_text, table_text};

use crate::line::NumLine;
use itoa::Buffer;
use std::alloc::{AllocError, Global};
use te_model::Memory;

fn number(out: &mut Vec<u8>, n: u64) -> Result<(), AllocError>
    ensures { OnOk result (out.new.items ≡ out.old.items ++ decimal n) }
{
    let mut buffer = Buffer::new();
    out.extend_from_slice(buffer.format(n).as_bytes())
}

fn spaced_all(out: &mut Vec<u8>, list: &[u64]) -> Result<(), AllocError>
    ensures { OnOk result (out.new.items ≡ out.old.items ++ flat_map with_space list.now) }
{
    for n in list {
        out.push(b' ')?;
        number(out, *n)?;
    }
    Ok(())
}

fn first_and_others(out: &mut Vec<u8>, first: u64, others: &[u64]) -> Result<(), AllocError>
    ensures { OnOk result (out.new.items ≡ out.old.items ++ numbers_text (first ∷ others.now)) }
{
    number(out, first)?;
    spaced_all(out, others)
}

fn numbers(out: &mut Vec<u8>, list: &[u64]) -> Result<(), AllocError>
    ensures { OnOk result (out.new.items ≡ out.old.items ++ numbers_text list.now) }
{
    match list {
        [] => Ok(()),
        [first, others @ ..] => first_and_others(out, *first, others),
    }
}

fn word_and_numbers(out: &mut Vec<u8>, word: &[u8], list: &[u64]) -> Result<(), AllocError>
    ensures { OnOk result (out.new.items ≡ out.old.items ++ words word.now list.now) }
{
    out.extend_from_slice(word)?;
    spaced_all(out, list)
}

fn tokens(out: &mut Vec<u8>, line: &NumLine) -> Result<(), AllocError>
    ensures { OnOk result (out.new.items ≡ out.old.items ++ line_text line.now) }
{
    let word = line.word.as_str().as_bytes();
    let list = line.numbers.as_slice();
    if word.is_empty() {
        numbers(out, list)
    } else {
        word_and_numbers(out, word, list)
    }
}

/// Puts the line at the end of the text, with its line feed.
///
/// Answers an error only where memory runs out.
pub fn print_line(out: &mut Vec<u8>, line: &NumLine) -> Result<(), AllocError>
    ensures { OnOk result (out.new.items ≡ out.old.items ++ (line_text line.now ++ 10 ∷ [])) }
{
    tokens(out, line)?;
    out.push(b'\n')?;
    Ok(())
}

fn lines(out: &mut Vec<u8>, list: &[NumLine]) -> Result<(), AllocError>
    ensures { OnOk result (out.new.items ≡ out.old.items ++ flat_map (λ l. line_text l ++ 10 ∷ []) list.now) }
{
    for next in list {
        print_line(out, next)?;
    }
    Ok(())
}

fn whole(out: &mut Vec<u8>, first: &[u8], list: &[NumLine]) -> Result<(), AllocError>
    ensures { OnOk result (out.new.items ≡ out.old.items ++ table_text first.now list.now) }
{
    out.extend_from_slice(first)?;
    out.push(b'\n')?;
    lines(out, list)?;
    out.extend_from_slice(b"end\n")?;
    Ok(())
}

/// Writes the text of a table: the line `first`, the lines, and `end`, of which [`table`](crate::table) gives the lines
/// back.
///
/// Answers an error only where memory runs out.
pub fn print_table(alloc: Global, first: &[u8], list: &[NumLine]) -> Result<Vec<u8>, Memory>
    ensures { IfOk result (λ file. file.items ≡ table_text first.now list.now) }
{
    let mut out = Vec::new(alloc);
    whole(&mut out, first, list)?;
    Ok(out)
}
