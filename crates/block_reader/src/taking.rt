//! Reading a block over the bytes that stand ready.
ghost use Rattle.std.specs.Prelude.{◌≡◌, ◌≢◌, ◌++◌, ℕ, List, OnOk, OnErr, Ok, Err};
ghost use Rattle.cert_text.specs.Reading.{narrow_number};
ghost use Rattle.cert_text.specs.Grammar.{read_block};
ghost use Rattle.cert_text.specs.Fits.{FitsBlock};
ghost use Rattle.block_reader.specs.Answers.{PassesFront, place_of};

use crate::block_lines::block;
use crate::lines::Lines;
use crate::room::Room;
use cert_text::Stop;

/// Reads a block into the room, and goes past it.
///
/// # Errors
///
/// `Stop::Shape` with the first line that is not of a block.
pub(crate) fn take_block(lines: &mut Lines, room: &mut Room) -> Result<(), Stop>
    ensures fits { OnOk result (FitsBlock room.old.limits room.old.counts room.new.block) }
    ensures took { OnOk result ((front : List ℕ) × PassesFront lines.old.window lines.new.window front
        × (read_block room.old.limits narrow_number room.old.counts (place_of lines.old) ≡ Ok (room.new.block, place_of lines.new))) }
    ensures stops { (line : ℕ) → result ≡ Err (Stop.Shape line) →
        read_block room.old.limits narrow_number room.old.counts (place_of lines.old) ≡ Err line }
    ensures same { OnErr result (lines.new ≡ lines.old) }
    ensures room { result ≢ Err Stop.Memory }
    ensures limits { room.new.limits ≡ room.old.limits }
    ensures counts { room.new.counts ≡ room.old.counts }
{
    let mut reader = lines.reader();
    block(&mut reader, room)?;
    let left = reader.source().left().len();
    let line = reader.line();
    lines.pass(left, line);
    Ok(())
}
