//! The parts of a certificate's text that are read one after another, each over the bytes that stand ready.
ghost use Rattle.std.specs.Prelude.{◌≡◌, ◌≢◌, ◌≤◌, ◌+◌, ◌++◌, ℕ, List, length, IfOk, OnOk, OnErr, Ok, Err, codes, true};
ghost use Rattle.std.specs.declared.result.Result.{Result};
ghost use Rattle.te_model.specs.Shape.{is_count};
ghost use Rattle.cert_text.specs.Place.{Place, place, Reads as ReadsSo};
ghost use Rattle.cert_text.specs.Reading.{narrow_number};
ghost use Rattle.cert_text.specs.Grammar.{read_format, read_network, read_counted, read_pair, read_set, read_ratio, read_closing};
ghost use Rattle.cert_text.specs.Fits.{IsWord, FitsNetwork, FitsPair, FitsSet};
ghost use Rattle.block_reader.specs.Ahead.{with_no_value};
ghost use Rattle.block_reader.specs.Sizes.{format_size, network_size, count_size, pair_size, set_size, ratio_size};
ghost use Rattle.block_reader.specs.Parts.{IsFormat, IsReadablePart};
ghost use Rattle.block_reader.specs.Answers.{IsBehind, PassesFront, IsWell, AnswersPart, StopsAs, IsClosed, place_of};
ghost use Rattle.te_ports.specs.Record.{Read, pass};
ghost use Rattle.te_ports.specs.Shown.{shown_by};
ghost use Rattle.block_reader.specs.Depots.{ReadsNamed};

use crate::lines::Lines;
use crate::stream_fault::StreamFault;
use cert_text::cursor::Bytes;
use cert_text::reader::Reader;
use cert_text::{Stop, grammar};
use std::alloc::Global;
use te_model::{DemandSet, Limits, Network, PairRoutes};
use te_ports::Depot;

/// A part of a certificate's text.
pub(crate) trait Part {
    /// What it gives.
    type Value;

    /// What it is read by may be used.
    ghost is_ready: { Self → Type 0 };

    /// Reading of it.
    ghost at: { Self → Place → Result (Self.Value × Place) ℕ };

    /// How many bytes reading of it looks at.
    ghost looked: { Self → ℕ };

    /// What holds of what it gives.
    ghost Fits: { Self → Self.Value → Type 0 };

    /// How many bytes reading of it looks at.
    fn size(&self) -> usize
        requires { is_ready self.now }
        ensures { result ≡ looked self.now };

    /// Reads it.
    fn read(&self, alloc: Global, reader: &mut Reader<Bytes<'_>>) -> Result<Self::Value, Stop>
        ensures fits { IfOk result (Fits self.now) }
        ensures reads { ReadsSo result (place reader.new.line reader.new.source.bytes.now)
            (at self.now (place reader.old.line reader.old.source.bytes.now)) };
}

// Reads a part over the bytes that stand ready, and goes past it.
fn take_part<P: Part>(alloc: Global, lines: &mut Lines, part: &P) -> Result<P::Value, Stop>
    requires { IsReadablePart (P.looked part.now) (P.at part.now) }
    ensures fits { IfOk result (P.Fits part.now) }
    ensures took { IfOk result (λ x. (front : List ℕ) × PassesFront lines.old.window lines.new.window front
        × (P.at part.now (place_of lines.old) ≡ Ok (x, place_of lines.new))) }
    ensures stops { (line : ℕ) → result ≡ Err (Stop.Shape line) → P.at part.now (place_of lines.old) ≡ Err line }
    ensures same { OnErr result (lines.new ≡ lines.old) }
{
    let mut reader = lines.reader();
    let value = part.read(alloc, &mut reader)?;
    let left = reader.source().left().len();
    let line = reader.line();
    lines.pass(left, line);
    Ok(value)
}

/// Reads a part of the file of this name.
pub(crate) fn read_part<D: Depot, P: Part>(
    alloc: Global,
    depot: &mut D,
    name: &str,
    lines: &mut Lines,
    part: &P,
) -> Result<P::Value, StreamFault>
    requires ready { P.is_ready part.now }
    requires part { IsReadablePart (P.looked part.now) (P.at part.now) }
    requires well { IsWell lines.old }
    ensures well { OnOk result (IsWell lines.new) }
    ensures fits { IfOk result (P.Fits part.now) }
    ensures answers { (before : List Read) → AnswersPart (pass name.now before (D.gave depot.old))
        (pass name.now before (D.gave depot.new)) lines.old lines.new (P.at part.now) result }
    ensures reads { ReadsNamed (shown_by D.content D.gave D.faults depot.old) (shown_by D.content D.gave D.faults depot.new)
        name.now result }
{
    lines.fill(depot, name, part.size())?;
    match take_part(alloc, lines, part) {
        Ok(value) => Ok(value),
        Err(stop) => Err(lines.stopped(depot, name, stop)),
    }
}

/// The first line, which names the format.
#[derive(Clone, Copy)]
pub(crate) struct FormatLine;

impl Part for FormatLine {
    type Value = u32;

    ghost is_ready = { λ _. Unit {0} };

    ghost at = { λ _. read_format };

    ghost looked = { λ _. format_size };

    ghost Fits = { λ _ _. Unit {0} };

    fn size(&self) -> usize {
        14
    }

    fn read(&self, _alloc: Global, reader: &mut Reader<Bytes<'_>>) -> Result<u32, Stop> {
        grammar::format(reader)
    }
}

/// The nodes and the links.
#[derive(Clone, Copy)]
pub(crate) struct NetworkLines<'a> {
    pub(crate) limits: &'a Limits,
}

impl<'a> Part for NetworkLines<'a> {
    type Value = Network;

    ghost is_ready = { λ p. IsFormat p.limits.now };

    ghost at = { λ p. read_network p.limits.now narrow_number };

    ghost looked = { λ p. network_size p.limits.now };

    ghost Fits = { λ p x. FitsNetwork p.limits.now x };

    fn size(&self) -> usize {
        58 + (self.limits.nodes as usize * 34 + self.limits.links as usize * 92)
    }

    fn read(&self, alloc: Global, reader: &mut Reader<Bytes<'_>>) -> Result<Network, Stop> {
        grammar::network(reader, alloc, self.limits)
    }
}

/// The count of the pairs.
#[derive(Clone, Copy)]
pub(crate) struct PairCount<'a> {
    pub(crate) limits: &'a Limits,
}

impl<'a> Part for PairCount<'a> {
    type Value = u64;

    ghost is_ready = { λ _. Unit {0} };

    ghost at = { λ p. read_counted (codes "pairs ") 0 p.limits.now.pairs };

    ghost looked = { λ _. count_size };

    ghost Fits = { λ p x. is_count 0 p.limits.now.pairs x ≡ true };

    fn size(&self) -> usize {
        30
    }

    fn read(&self, _alloc: Global, reader: &mut Reader<Bytes<'_>>) -> Result<u64, Stop> {
        grammar::counted(reader, b"pairs ", 0, self.limits.pairs)
    }
}

/// A pair and its paths.
#[derive(Clone, Copy)]
pub(crate) struct PairLines<'a> {
    pub(crate) limits: &'a Limits,
}

impl<'a> Part for PairLines<'a> {
    type Value = PairRoutes;

    ghost is_ready = { λ p. IsFormat p.limits.now };

    ghost at = { λ p. read_pair p.limits.now narrow_number };

    ghost looked = { λ p. pair_size p.limits.now };

    ghost Fits = { λ p x. FitsPair p.limits.now x };

    fn size(&self) -> usize {
        69 + self.limits.paths as usize * (46 + self.limits.hops as usize * 23)
    }

    fn read(&self, alloc: Global, reader: &mut Reader<Bytes<'_>>) -> Result<PairRoutes, Stop> {
        grammar::pair(reader, alloc, self.limits)
    }
}

/// The demand set.
#[derive(Clone, Copy)]
pub(crate) struct SetLines<'a> {
    pub(crate) limits: &'a Limits,
    pub(crate) pairs: u64,
}

impl<'a> Part for SetLines<'a> {
    type Value = DemandSet;

    ghost is_ready = { λ p. IsFormat p.limits.now × (p.pairs ≤ p.limits.now.pairs) };

    ghost at = { λ p. read_set p.limits.now p.pairs };

    ghost looked = { λ p. set_size p.pairs };

    ghost Fits = { λ p x. FitsSet p.limits.now p.pairs x };

    fn size(&self) -> usize {
        80 + (self.pairs as usize * 23 + self.pairs as usize * 23)
    }

    fn read(&self, alloc: Global, reader: &mut Reader<Bytes<'_>>) -> Result<DemandSet, Stop> {
        grammar::set(reader, alloc, self.limits, self.pairs)
    }
}

/// The ratio.
#[derive(Clone, Copy)]
pub(crate) struct RatioLine;

impl Part for RatioLine {
    type Value = u64;

    ghost is_ready = { λ _. Unit {0} };

    ghost at = { λ _. read_ratio };

    ghost looked = { λ _. ratio_size };

    ghost Fits = { λ _ x. IsWord x };

    fn size(&self) -> usize {
        29
    }

    fn read(&self, _alloc: Global, reader: &mut Reader<Bytes<'_>>) -> Result<u64, Stop> {
        grammar::ratio(reader)
    }
}

/// The count of the blocks.
#[derive(Clone, Copy)]
pub(crate) struct BlockCount<'a> {
    pub(crate) limits: &'a Limits,
}

impl<'a> Part for BlockCount<'a> {
    type Value = u64;

    ghost is_ready = { λ _. Unit {0} };

    ghost at = { λ p. read_counted (codes "blocks ") 0 p.limits.now.links };

    ghost looked = { λ _. count_size };

    ghost Fits = { λ p x. is_count 0 p.limits.now.links x ≡ true };

    fn size(&self) -> usize {
        30
    }

    fn read(&self, _alloc: Global, reader: &mut Reader<Bytes<'_>>) -> Result<u64, Stop> {
        grammar::counted(reader, b"blocks ", 0, self.limits.links)
    }
}

// Reads the last line over the bytes that stand ready.
#[tactic(auto, unfolding(cert_text::specs::Grammar::read_closing))]
fn take_closing(lines: &Lines) -> Result<(), Stop>
    ensures closes { OnOk result ((end : Place) × (read_closing (place_of lines.now) ≡ Ok end)) }
    ensures stops { (line : ℕ) → result ≡ Err (Stop.Shape line) → read_closing (place_of lines.now) ≡ Err line }
    ensures room { result ≢ Err Stop.Memory }
{
    let mut reader = lines.reader();
    reader.word(b"end")?;
    reader.end_line()?;
    reader.at_end()
}

/// Reads the last line of the file of this name, behind which nothing stands.
pub(crate) fn close<D: Depot>(
    depot: &mut D,
    name: &str,
    lines: &mut Lines,
) -> Result<(), StreamFault>
    requires well { IsWell lines.old }
    ensures well { OnOk result (IsWell lines.new) }
    ensures closes { OnOk result ((before : List Read) → (passed : List ℕ) → IsBehind (pass name.now before (D.gave depot.old)) lines.old passed →
        IsClosed (pass name.now before (D.gave depot.new)) lines.old passed) }
    ensures stops { (fault : StreamFault) → result ≡ Err fault → (before : List Read) → (passed : List ℕ) →
        IsBehind (pass name.now before (D.gave depot.old)) lines.old passed →
        StopsAs (pass name.now before (D.gave depot.new)) lines.old passed (with_no_value read_closing) fault }
    ensures room { result ≢ Err StreamFault.Memory }
    ensures reads { ReadsNamed (shown_by D.content D.gave D.faults depot.old) (shown_by D.content D.gave D.faults depot.new)
        name.now result }
{
    lines.fill(depot, name, 5)?;
    match take_closing(lines) {
        Ok(()) => Ok(()),
        Err(misread) => Err(lines.stopped(depot, name, misread)),
    }
}
