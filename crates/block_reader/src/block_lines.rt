//! Reading the lines of a block in place.
ghost use Rattle.std.specs.Prelude.{◌≡◌, ◌≢◌, ◌≤◌, ◌-◌, length, take, OnOk, Err, true};
ghost use Rattle.std.specs.List.{AllByRecursion};
ghost use Rattle.te_model.specs.Shape.{is_count};
ghost use Rattle.cert_text.specs.Place.{ReadsViewed, Appends};
ghost use Rattle.cert_text.specs.Takes.{Takes};
ghost use Rattle.cert_text.specs.Reading.{narrow_number, read_many, read_next_number};
ghost use Rattle.cert_text.specs.Grammar.{read_number_line, read_listing, read_row, read_sides, read_block};
ghost use Rattle.cert_text.specs.BlockRest.{read_block_rest};
ghost use Rattle.cert_text.specs.Fits.{AreWords, FitsList, FitsRow, FitsSides, FitsBlock};
ghost use Rattle.block_reader.specs.Room.{HasWidth, IsShelf, sides_of};

use crate::room::Room;
use cert_text::cursor::Cursor;
use cert_text::grammar::block_line;
use cert_text::reader::Reader;
use cert_text::{BlockLine, Stop};
use te_model::{Items, Row};

// Numbers with a space before each, in the place of those of the list from this one on.
fn numbers<C: Cursor>(r: &mut Reader<C>, from: usize, list: &mut Items<u64>) -> Result<(), Stop>
    requires { from ≤ length list.old }
    ensures count { length list.new ≡ length list.old }
    ensures words { AreWords (take from list.old) → OnOk result (AreWords list.new) }
    ensures room { result ≢ Err Stop.Memory }
    ensures takes { Takes r.old r.new (Appends result (take from list.old) list.new)
        (read_many (length list.old - from) read_next_number) }
{
    let count = list.as_slice().len();
    for k in from..count {
        let number = r.next_number()?;
        list.set(k, number);
    }
    Ok(())
}

// One number or more, on a line of their own.
#[tactic(auto, unfolding(cert_text::specs::Grammar::read_number_line))]
fn number_line<C: Cursor>(r: &mut Reader<C>, list: &mut Items<u64>) -> Result<(), Stop>
    requires { 1 ≤ length list.old }
    ensures count { length list.new ≡ length list.old }
    ensures fits { OnOk result (FitsList (length list.old) list.new) }
    ensures room { result ≢ Err Stop.Memory }
    ensures takes { Takes r.old r.new (ReadsViewed (λ _. list.new) result) (read_number_line (length list.old)) }
{
    let first = r.number()?;
    list.set(0, first);
    numbers(r, 1, list)?;
    r.end_line()
}

// A word and numbers after it, on a line of their own.
#[tactic(auto, unfolding(cert_text::specs::Grammar::read_listing))]
fn listing<C: Cursor>(r: &mut Reader<C>, word: &[u8], list: &mut Items<u64>) -> Result<(), Stop>
    ensures count { length list.new ≡ length list.old }
    ensures fits { OnOk result (FitsList (length list.old) list.new) }
    ensures room { result ≢ Err Stop.Memory }
    ensures takes { Takes r.old r.new (ReadsViewed (λ _. list.new) result) (read_listing word.now (length list.old)) }
{
    r.word(word)?;
    numbers(r, 0, list)?;
    r.end_line()
}

// The potentials of one source.
#[tactic(auto, unfolding(cert_text::specs::Grammar::read_row))]
fn row<C: Cursor>(r: &mut Reader<C>, row: &mut Row) -> Result<(), Stop>
    ensures width { HasWidth (length row.old.potential) row.new }
    ensures fits { OnOk result (FitsRow (length row.old.potential) row.new) }
    ensures room { result ≢ Err Stop.Memory }
    ensures takes { Takes r.old r.new (ReadsViewed (λ _. row.new) result) (read_row narrow_number (length row.old.potential)) }
{
    row.source = r.narrow()?;
    numbers(r, 0, &mut row.potential)?;
    r.end_line()
}

// The rows, each read into the spare row, which then changes places with it.
fn rows<C: Cursor>(r: &mut Reader<C>, rows: &mut Items<Row>, spare: &mut Row) -> Result<(), Stop>
    requires { IsShelf (length rows.old) (length spare.old.potential) rows.old }
    ensures shelf { IsShelf (length rows.old) (length spare.old.potential) rows.new }
    ensures spare { HasWidth (length spare.old.potential) spare.new }
    ensures fits { OnOk result (AllByRecursion (FitsRow (length spare.old.potential)) rows.new) }
    ensures room { result ≢ Err Stop.Memory }
    ensures takes { Takes r.old r.new (ReadsViewed (λ _. rows.new) result)
        (read_many (length rows.old) (read_row narrow_number (length spare.old.potential))) }
{
    let count = rows.as_slice().len();
    for k in 0..count {
        row(r, spare)?;
        rows.swap_item(k, spare);
    }
    Ok(())
}

// The lines `plus` and `minus`, where the set has bounds.
#[tactic(auto, unfolding(cert_text::specs::Grammar::read_sides))]
fn sides<C: Cursor>(
    r: &mut Reader<C>,
    bounded: bool,
    pairs: u64,
    plus: &mut Items<u64>,
    minus: &mut Items<u64>,
) -> Result<(), Stop>
    requires plus { length plus.old ≡ sides_of bounded pairs }
    requires minus { length minus.old ≡ sides_of bounded pairs }
    ensures plus { length plus.new ≡ sides_of bounded pairs }
    ensures minus { length minus.new ≡ sides_of bounded pairs }
    ensures fits { OnOk result (FitsSides bounded pairs plus.new minus.new) }
    ensures room { result ≢ Err Stop.Memory }
    ensures takes { Takes r.old r.new (ReadsViewed (λ _. (plus.new, minus.new)) result) (read_sides bounded pairs) }
{
    if bounded {
        listing(r, b"plus", plus)?;
        listing(r, b"minus", minus)?;
    }
    Ok(())
}

// The lines of a block behind its first line.
fn rest_of_block<C: Cursor>(r: &mut Reader<C>, room: &mut Room, line: BlockLine) -> Result<(), Stop>
    requires { is_count 0 room.old.limits.nodes line.rows ≡ true }
    ensures limits { room.new.limits ≡ room.old.limits }
    ensures counts { room.new.counts ≡ room.old.counts }
    ensures fits { OnOk result (FitsBlock room.old.limits room.old.counts room.new.block) }
    ensures room { result ≢ Err Stop.Memory }
    ensures takes { Takes r.old r.new (ReadsViewed (λ _. room.new.block) result)
        (read_block_rest narrow_number room.old.counts line) }
{
    room.block.link = line.link;
    room.block.a = line.a;
    room.block.b = line.b;
    number_line(r, &mut room.block.weights)?;
    room.lend(line.rows as usize);
    rows(r, &mut room.block.rows, &mut room.spare)?;
    let counts = room.counts;
    sides(
        r,
        counts.bounded,
        counts.pairs,
        &mut room.block.plus,
        &mut room.block.minus,
    )
}

/// A block, in the place of the one that was there.
///
/// # Errors
///
/// `Stop::Shape` with the first line that is not so.
pub(crate) fn block<C: Cursor>(r: &mut Reader<C>, room: &mut Room) -> Result<(), Stop>
    ensures limits { room.new.limits ≡ room.old.limits }
    ensures counts { room.new.counts ≡ room.old.counts }
    ensures fits { OnOk result (FitsBlock room.old.limits room.old.counts room.new.block) }
    ensures room { result ≢ Err Stop.Memory }
    ensures takes { Takes r.old r.new (ReadsViewed (λ _. room.new.block) result)
        (read_block room.old.limits narrow_number room.old.counts) }
{
    let line = block_line(r, room.limits.nodes)?;
    rest_of_block(r, room, line)
}
