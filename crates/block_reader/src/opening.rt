//! Reading what stands before the blocks, part by part.
ghost use Rattle.std.specs.Prelude.{◌≡◌, List, ◌≤◌, length, IfOk, OnOk};
ghost use Rattle.te_model.specs.Formats.{limits_of};
ghost use Rattle.cert_text.specs.Reading.{narrow_number, read_many};
ghost use Rattle.cert_text.specs.Grammar.{read_format, read_pair, read_routes, read_head};
ghost use Rattle.cert_text.specs.Halves.{read_format_and_head};
ghost use Rattle.cert_text.specs.Fits.{FitsPair, FitsRoutes, FitsHead};
ghost use Rattle.cert_text.specs.Listed.{IsListOf};
ghost use Rattle.block_reader.specs.Sizes.{block_size};
ghost use Rattle.block_reader.specs.Parts.{IsFormat};
ghost use Rattle.block_reader.specs.Answers.{IsWell, AnswersPart};
ghost use Rattle.te_ports.specs.Record.{Read, pass};
ghost use Rattle.te_ports.specs.Shown.{shown_by};
ghost use Rattle.block_reader.specs.Depots.{ReadsNamed};

use crate::lines::Lines;
use crate::parts::{
    FormatLine, NetworkLines, PairCount, PairLines, RatioLine, SetLines, read_part,
};
use crate::stream_fault::StreamFault;
use cert_text::Counts;
use std::alloc::Global;
use te_model::{Head, Items, Limits, PairRoutes, limits_of};
use te_ports::Depot;

/// How many bytes reading of a block looks at.
pub(crate) fn block_size(limits: &Limits, counts: &Counts) -> usize
    requires limits { IsFormat limits.now }
    requires nodes { counts.now.nodes ≤ limits.now.nodes }
    requires links { counts.now.links ≤ limits.now.links }
    requires pairs { counts.now.pairs ≤ limits.now.pairs }
    ensures size { result ≡ block_size limits.now.nodes counts.now }
    ensures small { result ≤ 1310720 }
{
    let row = 23 + counts.nodes as usize * 23;
    let sides = counts.pairs as usize * 23 + counts.pairs as usize * 23;
    126 + (counts.links as usize * 23 + (limits.nodes as usize * row + sides))
}

/// The first line: the number of the format.
pub(crate) fn first_line<D: Depot>(
    alloc: Global,
    depot: &mut D,
    name: &str,
    lines: &mut Lines,
) -> Result<u32, StreamFault>
    requires well { IsWell lines.old }
    ensures well { OnOk result (IsWell lines.new) }
    ensures answers { (before : List Read) → AnswersPart (pass name.now before (D.gave depot.old))
        (pass name.now before (D.gave depot.new)) lines.old lines.new read_format result }
    ensures reads { ReadsNamed (shown_by D.content D.gave D.faults depot.old) (shown_by D.content D.gave D.faults depot.new)
        name.now result }
{
    read_part(alloc, depot, name, lines, &FormatLine)
}

// So many pairs.
fn pairs<D: Depot>(
    alloc: Global,
    depot: &mut D,
    name: &str,
    lines: &mut Lines,
    limits: &Limits,
    count: u64,
) -> Result<Items<PairRoutes>, StreamFault>
    requires limits { IsFormat limits.now }
    requires well { IsWell lines.old }
    ensures well { OnOk result (IsWell lines.new) }
    ensures fits { IfOk result (IsListOf count (FitsPair limits.now)) }
    ensures answers { (before : List Read) → AnswersPart (pass name.now before (D.gave depot.old))
        (pass name.now before (D.gave depot.new)) lines.old lines.new
        (read_many count (read_pair limits.now narrow_number)) result }
    ensures reads { ReadsNamed (shown_by D.content D.gave D.faults depot.old) (shown_by D.content D.gave D.faults depot.new)
        name.now result }
{
    let mut items = Vec::with_capacity(alloc, count as usize)?;
    for _ in 0..count {
        let item = read_part(alloc, depot, name, lines, &PairLines { limits })?;
        items.push(item)?;
    }
    Ok(Items::new(items))
}

// The count of the pairs, and each pair.
fn routes<D: Depot>(
    alloc: Global,
    depot: &mut D,
    name: &str,
    lines: &mut Lines,
    limits: &Limits,
) -> Result<Items<PairRoutes>, StreamFault>
    requires limits { IsFormat limits.now }
    requires well { IsWell lines.old }
    ensures well { OnOk result (IsWell lines.new) }
    ensures fits { IfOk result (FitsRoutes limits.now) }
    ensures answers { (before : List Read) → AnswersPart (pass name.now before (D.gave depot.old))
        (pass name.now before (D.gave depot.new)) lines.old lines.new
        (read_routes limits.now narrow_number) result }
    ensures reads { ReadsNamed (shown_by D.content D.gave D.faults depot.old) (shown_by D.content D.gave D.faults depot.new)
        name.now result }
{
    let count = read_part(alloc, depot, name, lines, &PairCount { limits })?;
    pairs(alloc, depot, name, lines, limits, count)
}

// The head behind its first line.
fn head<D: Depot>(
    alloc: Global,
    depot: &mut D,
    name: &str,
    lines: &mut Lines,
    limits: &Limits,
) -> Result<Head, StreamFault>
    requires limits { IsFormat limits.now }
    requires well { IsWell lines.old }
    ensures well { OnOk result (IsWell lines.new) }
    ensures fits { IfOk result (FitsHead limits.now) }
    ensures answers { (before : List Read) → AnswersPart (pass name.now before (D.gave depot.old))
        (pass name.now before (D.gave depot.new)) lines.old lines.new
        (read_head limits.now narrow_number) result }
    ensures reads { ReadsNamed (shown_by D.content D.gave D.faults depot.old) (shown_by D.content D.gave D.faults depot.new)
        name.now result }
{
    let network = read_part(alloc, depot, name, lines, &NetworkLines { limits })?;
    let routes = routes(alloc, depot, name, lines, limits)?;
    let pairs = routes.as_slice().len() as u64;
    let set = read_part(alloc, depot, name, lines, &SetLines { limits, pairs })?;
    let ratio = read_part(alloc, depot, name, lines, &RatioLine)?;
    Ok(Head {
        format: limits.format,
        network,
        routes,
        set,
        ratio,
    })
}

/// The first line, which gives the limits, and the head.
pub(crate) fn format_and_head<D: Depot>(
    alloc: Global,
    depot: &mut D,
    name: &str,
    lines: &mut Lines,
) -> Result<Head, StreamFault>
    requires well { IsWell lines.old }
    ensures well { OnOk result (IsWell lines.new) }
    ensures fits { IfOk result (λ x. FitsHead (limits_of x.format) x) }
    ensures answers { (before : List Read) → AnswersPart (pass name.now before (D.gave depot.old))
        (pass name.now before (D.gave depot.new)) lines.old lines.new
        (read_format_and_head narrow_number) result }
    ensures reads { ReadsNamed (shown_by D.content D.gave D.faults depot.old) (shown_by D.content D.gave D.faults depot.new)
        name.now result }
{
    let limits = limits_of(first_line(alloc, depot, name, lines)?);
    head(alloc, depot, name, lines, &limits)
}
