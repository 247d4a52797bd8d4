//! Reading a certificate's parts, line by line. What is handed out is shaped whether or not the content is told.
//!
//! The first line names the format, whose limits the lines after it keep.
ghost use Rattle.std.specs.Prelude.{◌≡◌, ◌≢◌, ◌<◌, ◌≤◌, true, false, IfOk, Err};
ghost use Rattle.cert_text.specs.LineEnds.{read_line_end_after, read_last_numbers};
ghost use Rattle.cert_text.specs.Place.{Reads, Passes};
ghost use Rattle.cert_text.specs.Takes.{Takes};
ghost use Rattle.cert_text.specs.Reading.{narrow_number, read_next_narrow};
ghost use Rattle.te_model.specs.Shape.{is_count};
ghost use Rattle.cert_text.specs.Fits.{IsWord, IsNamed, FitsLink, FitsNetwork, FitsPath, FitsPair, FitsRoutes, FitsList, FitsSet, FitsHead, FitsRow, FitsSides, FitsBlock};
ghost use Rattle.cert_text.specs.BlockLine.{read_block_line};
ghost use Rattle.cert_text.specs.BlockRest.{read_block_rest};
ghost use Rattle.cert_text.specs.Halves.{read_format_and_head, read_blocks};
ghost use Rattle.cert_text.specs.Grammar.{read_counted, read_listing, read_name_line, read_link_line, read_network, read_path, read_pair, read_routes, read_all, read_margin, read_set, read_ratio, read_head, read_number_line, read_row, read_sides, read_block, read_closing, read_certificate, counts_of, read_box, has_boxes, read_digit, read_format};
ghost use Rattle.te_model.specs.Formats.{limits_of};

use crate::cursor::Cursor;
use crate::fault::Stop;
use crate::item::{Item, many};
use crate::limits::{BlockLine, Counts};
use crate::reader::Reader;
use std::alloc::Global;
use te_model::{
    Block, Certificate, DemandSet, Head, Items, Limits, Link, Matrix, Name, Network, Pair,
    PairRoutes, PathShare, Row, limits_of,
};

// Takes the line feed after the value, and gives the value.
#[tactic(auto, unfolding(crate::specs::LineEnds::read_line_end_after))]
fn line_end_after<C: Cursor, T: Drop>(r: &mut Reader<C>, value: T) -> Result<T, Stop>
    ensures same { IfOk result (λ x. x ≡ value) }
    ensures room { result ≢ Err Stop.Memory }
    ensures takes { Takes r.old r.new (Reads result) (read_line_end_after value) }
{
    r.end_line()?;
    Ok(value)
}

/// A word and a number within the range, on a line of their own.
///
/// # Errors
///
/// `Stop::Shape` with the line that is not so.
#[tactic(auto, unfolding(crate::specs::Grammar::read_counted, crate::specs::LineEnds::read_line_end_after))]
pub fn counted<C: Cursor>(r: &mut Reader<C>, word: &[u8], low: u64, high: u64) -> Result<u64, Stop>
    ensures fits { IfOk result (λ x. is_count low high x ≡ true) }
    ensures room { result ≢ Err Stop.Memory }
    ensures takes { Takes r.old r.new (Reads result) (read_counted word.now low high) }
{
    r.word(word)?;
    let n = r.count(low, high)?;
    line_end_after(r, n)
}

// So many numbers, each with a space before it, at the end of a line.
#[tactic(auto, unfolding(crate::specs::LineEnds::read_last_numbers))]
fn last_numbers<C: Cursor>(r: &mut Reader<C>, alloc: Global, count: u64) -> Result<Items<u64>, Stop>
    ensures fits { IfOk result (λ x. FitsList count x) }
    ensures takes { Takes r.old r.new (Reads result) (read_last_numbers count) }
{
    let mut list = Vec::with_capacity(alloc, count as usize)?;
    r.numbers(count, &mut list)?;
    line_end_after(r, Items::new(list))
}

// A word and so many numbers after it, on a line of their own.
#[tactic(auto, unfolding(crate::specs::Grammar::read_listing, crate::specs::LineEnds::read_last_numbers, crate::specs::LineEnds::read_line_end_after))]
fn listing<C: Cursor>(
    r: &mut Reader<C>,
    alloc: Global,
    word: &[u8],
    count: u64,
) -> Result<Items<u64>, Stop>
    ensures fits { IfOk result (λ x. FitsList count x) }
    ensures takes { Takes r.old r.new (Reads result) (read_listing word.now count) }
{
    r.word(word)?;
    last_numbers(r, alloc, count)
}

// A node's name, on a line of its own.
struct NameLine;

impl Item for NameLine {
    type Value = Name;

    ghost reading = { λ _. read_name_line };

    ghost Fits = { λ _ x. IsNamed x };

    #[tactic(auto, unfolding(crate::specs::Grammar::read_name_line, crate::specs::LineEnds::read_line_end_after))]
    fn read<C: Cursor>(&self, r: &mut Reader<C>, alloc: Global) -> Result<Name, Stop> {
        let name = r.name(alloc)?;
        line_end_after(r, name)
    }
}

// A link, on a line of its own.
struct LinkLine;

impl Item for LinkLine {
    type Value = Link;

    ghost reading = { λ _. read_link_line narrow_number };

    ghost Fits = { λ _ x. FitsLink x };

    #[tactic(auto, unfolding(crate::specs::Grammar::read_link_line, crate::specs::LineEnds::read_line_end_after))]
    fn read<C: Cursor>(&self, r: &mut Reader<C>, _alloc: Global) -> Result<Link, Stop> {
        let tail = r.narrow()?;
        let head = r.next_narrow()?;
        let capacity = r.next_number()?;
        let cost = r.next_narrow()?;
        line_end_after(
            r,
            Link {
                tail,
                head,
                capacity,
                cost,
            },
        )
    }
}

/// The counts and lines of the nodes and of the links.
///
/// # Errors
///
/// `Stop::Shape` with the first line that is not so; `Stop::Memory` where memory is short.
#[tactic(auto, unfolding(crate::specs::Grammar::read_network))]
pub fn network<C: Cursor>(
    r: &mut Reader<C>,
    alloc: Global,
    limits: &Limits,
) -> Result<Network, Stop>
    ensures fits { IfOk result (λ x. FitsNetwork limits.now x) }
    ensures takes { Takes r.old r.new (Reads result) (read_network limits.now narrow_number) }
{
    let nodes = counted(r, b"nodes ", 2, limits.nodes)?;
    let names = many(r, alloc, nodes, &NameLine)?;
    let count = counted(r, b"links ", 1, limits.links)?;
    let links = many(r, alloc, count, &LinkLine)?;
    Ok(Network { names, links })
}

// A link of a path.
struct Hop;

impl Item for Hop {
    type Value = u32;

    ghost reading = { λ _. read_next_narrow narrow_number };

    ghost Fits = { λ _ x. IsWord x };

    fn read<C: Cursor>(&self, r: &mut Reader<C>, _alloc: Global) -> Result<u32, Stop> {
        r.next_narrow()
    }
}

// A weight and the links of a path, on a line of their own.
#[derive(Drop)]
struct PathLine<'a> {
    limits: &'a Limits,
}

impl<'a> Item for PathLine<'a> {
    type Value = PathShare;

    ghost reading = { λ line. read_path line.limits.now narrow_number };

    ghost Fits = { λ line x. FitsPath line.limits.now x };

    #[tactic(auto, unfolding(crate::specs::Grammar::read_path, crate::specs::LineEnds::read_line_end_after))]
    fn read<C: Cursor>(&self, r: &mut Reader<C>, alloc: Global) -> Result<PathShare, Stop> {
        let weight = r.number()?;
        let count = r.next_count(1, self.limits.hops)?;
        let links = many(r, alloc, count, &Hop)?;
        line_end_after(r, PathShare { links, weight })
    }
}

/// A pair and its paths.
///
/// # Errors
///
/// `Stop::Shape` with the first line that is not so; `Stop::Memory` where memory is short.
#[tactic(auto, unfolding(crate::specs::Grammar::read_pair))]
pub fn pair<C: Cursor>(
    r: &mut Reader<C>,
    alloc: Global,
    limits: &Limits,
) -> Result<PairRoutes, Stop>
    ensures fits { IfOk result (λ x. FitsPair limits.now x) }
    ensures takes { Takes r.old r.new (Reads result) (read_pair limits.now narrow_number) }
{
    let src = r.narrow()?;
    let dst = r.next_narrow()?;
    let count = r.next_count(1, limits.paths)?;
    r.end_line()?;
    let paths = many(r, alloc, count, &PathLine { limits })?;
    Ok(PairRoutes {
        pair: Pair { src, dst },
        paths,
    })
}

// A pair and its paths.
#[derive(Drop)]
struct PairLines<'a> {
    limits: &'a Limits,
}

impl<'a> Item for PairLines<'a> {
    type Value = PairRoutes;

    ghost reading = { λ lines. read_pair lines.limits.now narrow_number };

    ghost Fits = { λ lines x. FitsPair lines.limits.now x };

    fn read<C: Cursor>(&self, r: &mut Reader<C>, alloc: Global) -> Result<PairRoutes, Stop> {
        pair(r, alloc, self.limits)
    }
}

#[tactic(auto, unfolding(crate::specs::Grammar::read_routes))]
fn routes<C: Cursor>(
    r: &mut Reader<C>,
    alloc: Global,
    limits: &Limits,
) -> Result<Items<PairRoutes>, Stop>
    ensures fits { IfOk result (λ x. FitsRoutes limits.now x) }
    ensures takes { Takes r.old r.new (Reads result) (read_routes limits.now narrow_number) }
{
    let count = counted(r, b"pairs ", 0, limits.pairs)?;
    many(r, alloc, count, &PairLines { limits })
}

#[tactic(auto, unfolding(crate::specs::Grammar::read_all, crate::specs::LineEnds::read_line_end_after))]
fn all<C: Cursor>(r: &mut Reader<C>) -> Result<DemandSet, Stop>
    ensures value { IfOk result (λ x. x ≡ DemandSet.All) }
    ensures takes { Takes r.old r.new (Reads result) read_all }
{
    r.word(b"all")?;
    line_end_after(r, DemandSet::All)
}

#[tactic(auto, unfolding(crate::specs::Grammar::read_margin))]
fn margin<C: Cursor>(
    r: &mut Reader<C>,
    alloc: Global,
    limits: &Limits,
    pairs: u64,
) -> Result<DemandSet, Stop>
    requires { has_boxes limits.now ≡ false }
    ensures fits { IfOk result (λ x. FitsSet limits.now pairs x) }
    ensures takes { Takes r.old r.new (Reads result) (read_margin pairs) }
{
    r.word(b"margin ")?;
    let num = r.number()?;
    let den = r.next_number()?;
    r.end_line()?;
    let demand = listing(r, alloc, b"base", pairs)?;
    Ok(DemandSet::Margin {
        num,
        den,
        base: Matrix { demand },
    })
}

#[tactic(auto, unfolding(crate::specs::Grammar::read_box))]
fn bounds<C: Cursor>(
    r: &mut Reader<C>,
    alloc: Global,
    limits: &Limits,
    pairs: u64,
) -> Result<DemandSet, Stop>
    requires { has_boxes limits.now ≡ true }
    ensures fits { IfOk result (λ x. FitsSet limits.now pairs x) }
    ensures takes { Takes r.old r.new (Reads result) (read_box pairs) }
{
    r.word(b"box")?;
    r.end_line()?;
    let lower = listing(r, alloc, b"lower", pairs)?;
    let upper = listing(r, alloc, b"upper", pairs)?;
    Ok(DemandSet::Box {
        lower: Matrix { demand: lower },
        upper: Matrix { demand: upper },
    })
}

/// All matrices, where an `a` stands next, and else the set with bounds that the format has.
///
/// # Errors
///
/// `Stop::Shape` with the first line that is not so; `Stop::Memory` where memory is short.
#[tactic(auto, unfolding(crate::specs::Grammar::read_set))]
pub fn set<C: Cursor>(
    r: &mut Reader<C>,
    alloc: Global,
    limits: &Limits,
    pairs: u64,
) -> Result<DemandSet, Stop>
    ensures fits { IfOk result (λ x. FitsSet limits.now pairs x) }
    ensures takes { Takes r.old r.new (Reads result) (read_set limits.now pairs) }
{
    r.word(b"set ")?;
    if r.is_next(b'a') {
        all(r)
    } else if limits.format == 2 {
        bounds(r, alloc, limits, pairs)
    } else {
        margin(r, alloc, limits, pairs)
    }
}

/// The line of the ratio, in millionths.
///
/// # Errors
///
/// `Stop::Shape` with the line that is not so.
#[tactic(auto, unfolding(crate::specs::Grammar::read_ratio, crate::specs::LineEnds::read_line_end_after))]
pub fn ratio<C: Cursor>(r: &mut Reader<C>) -> Result<u64, Stop>
    ensures room { result ≢ Err Stop.Memory }
    ensures takes { Takes r.old r.new (Reads result) read_ratio }
{
    r.word(b"ratio ")?;
    let ratio = r.number()?;
    line_end_after(r, ratio)
}

#[tactic(auto, unfolding(crate::specs::Grammar::read_head))]
fn head<C: Cursor>(r: &mut Reader<C>, alloc: Global, limits: &Limits) -> Result<Head, Stop>
    ensures fits { IfOk result (λ x. FitsHead limits.now x) }
    ensures takes { Takes r.old r.new (Reads result) (read_head limits.now narrow_number) }
{
    let network = network(r, alloc, limits)?;
    let routes = routes(r, alloc, limits)?;
    let pairs = routes.as_slice().len() as u64;
    let set = set(r, alloc, limits, pairs)?;
    let ratio = ratio(r)?;
    Ok(Head {
        format: limits.format,
        network,
        routes,
        set,
        ratio,
    })
}

// So many numbers, on a line of their own.
#[tactic(auto, unfolding(crate::specs::Grammar::read_number_line))]
fn number_line<C: Cursor>(r: &mut Reader<C>, alloc: Global, count: u64) -> Result<Items<u64>, Stop>
    requires { 1 ≤ count }
    ensures fits { IfOk result (λ x. FitsList count x) }
    ensures takes { Takes r.old r.new (Reads result) (read_number_line count) }
{
    let first = r.number()?;
    let mut list = Vec::with_capacity(alloc, count as usize)?;
    list.push(first)?;
    r.numbers(count - 1, &mut list)?;
    line_end_after(r, Items::new(list))
}

// A source and its potentials, on a line of their own.
#[derive(Drop)]
struct RowLine {
    nodes: u64,
}

impl Item for RowLine {
    type Value = Row;

    ghost reading = { λ line. read_row narrow_number line.nodes };

    ghost Fits = { λ line x. FitsRow line.nodes x };

    #[tactic(auto, unfolding(crate::specs::Grammar::read_row))]
    fn read<C: Cursor>(&self, r: &mut Reader<C>, alloc: Global) -> Result<Row, Stop> {
        let source = r.narrow()?;
        let potential = last_numbers(r, alloc, self.nodes)?;
        Ok(Row { source, potential })
    }
}

// The lines `plus` and `minus`, where the set has bounds.
#[tactic(auto, unfolding(crate::specs::Grammar::read_sides))]
fn sides<C: Cursor>(
    r: &mut Reader<C>,
    alloc: Global,
    bounded: bool,
    pairs: u64,
) -> Result<(Items<u64>, Items<u64>), Stop>
    ensures fits { IfOk result (λ x. FitsSides bounded pairs x.0 x.1) }
    ensures takes { Takes r.old r.new (Reads result) (read_sides bounded pairs) }
{
    if !bounded {
        return Ok((Items::new(Vec::new(alloc)), Items::new(Vec::new(alloc))));
    }
    let plus = listing(r, alloc, b"plus", pairs)?;
    let minus = listing(r, alloc, b"minus", pairs)?;
    Ok((plus, minus))
}

/// The first line of a block, which has at most so many rows.
///
/// # Errors
///
/// `Stop::Shape` with the line, where it is not so.
#[tactic(auto, unfolding(crate::specs::BlockLine::read_block_line, crate::specs::LineEnds::read_line_end_after))]
pub fn block_line<C: Cursor>(r: &mut Reader<C>, most: u64) -> Result<BlockLine, Stop>
    ensures fits { IfOk result (λ x. is_count 0 most x.rows ≡ true) }
    ensures room { result ≢ Err Stop.Memory }
    ensures takes { Takes r.old r.new (Reads result) (read_block_line narrow_number most) }
{
    let link = r.narrow()?;
    let a = r.next_number()?;
    let b = r.next_number()?;
    let rows = r.next_count(0, most)?;
    line_end_after(r, BlockLine { link, a, b, rows })
}

// A block, which has a weight for each link, and at least one.
#[derive(Drop)]
struct BlockLines<'a> {
    limits: &'a Limits,
    counts: &'a Counts,
    ghost some: { 1 ≤ counts.now.links },
}

impl<'a> BlockLines<'a> {
    // The lines after the first one of a block.
    #[tactic(auto, unfolding(crate::specs::BlockRest::read_block_rest))]
    fn rest<C: Cursor>(
        &self,
        r: &mut Reader<C>,
        alloc: Global,
        line: BlockLine,
    ) -> Result<Block, Stop>
        requires { is_count 0 self.now.limits.now.nodes line.rows ≡ true }
        ensures fits { IfOk result (λ x. FitsBlock self.now.limits.now self.now.counts.now x) }
        ensures takes { Takes r.old r.new (Reads result)
            (read_block_rest narrow_number self.now.counts.now line) }
    {
        let counts = self.counts;
        let weights = number_line(r, alloc, counts.links)?;
        let nodes = counts.nodes;
        let rows = many(r, alloc, line.rows, &RowLine { nodes })?;
        let (plus, minus) = sides(r, alloc, counts.bounded, counts.pairs)?;
        Ok(Block {
            link: line.link,
            a: line.a,
            b: line.b,
            weights,
            rows,
            plus,
            minus,
        })
    }
}

impl<'a> Item for BlockLines<'a> {
    type Value = Block;

    ghost reading = { λ lines. read_block lines.limits.now narrow_number lines.counts.now };

    ghost Fits = { λ lines x. FitsBlock lines.limits.now lines.counts.now x };

    fn read<C: Cursor>(&self, r: &mut Reader<C>, alloc: Global) -> Result<Block, Stop> {
        let line = block_line(r, self.limits.nodes)?;
        self.rest(r, alloc, line)
    }
}

/// The last line, after which nothing stands.
///
/// # Errors
///
/// `Stop::Shape` with the line that is not so.
#[tactic(auto, unfolding(crate::specs::Grammar::read_closing))]
pub fn closing<C: Cursor>(r: &mut Reader<C>) -> Result<(), Stop>
    ensures room { result ≢ Err Stop.Memory }
    ensures takes { Takes r.old r.new (Passes result) read_closing }
{
    r.word(b"end")?;
    r.end_line()?;
    r.at_end()
}

// The digit of the format, which ends the first line.
#[tactic(auto, unfolding(crate::specs::Grammar::read_digit, crate::specs::LineEnds::read_line_end_after))]
fn digit<C: Cursor>(r: &mut Reader<C>, format: u8) -> Result<u32, Stop>
    requires { format < 10 }
    ensures room { result ≢ Err Stop.Memory }
    ensures takes { Takes r.old r.new (Reads result) (read_digit format) }
{
    r.byte(b'0' + format)?;
    line_end_after(r, u32::from(format))
}

/// The first line, and the number of the format: 2 where a `2` stands next, and else 1, whose digit is then due.
///
/// # Errors
///
/// `Stop::Shape` with the line that is not so.
#[tactic(auto, unfolding(crate::specs::Grammar::read_format))]
pub fn format<C: Cursor>(r: &mut Reader<C>) -> Result<u32, Stop>
    ensures room { result ≢ Err Stop.Memory }
    ensures takes { Takes r.old r.new (Reads result) read_format }
{
    r.word(b"yates-ratio ")?;
    if r.is_next(b'2') {
        digit(r, 2)
    } else {
        digit(r, 1)
    }
}

// The first line, which gives the limits, and the head.
#[tactic(auto, unfolding(crate::specs::Halves::read_format_and_head))]
fn format_and_head<C: Cursor>(r: &mut Reader<C>, alloc: Global) -> Result<Head, Stop>
    ensures fits { IfOk result (λ x. FitsHead (limits_of x.format) x) }
    ensures takes { Takes r.old r.new (Reads result) (read_format_and_head narrow_number) }
{
    let limits = limits_of(format(r)?);
    head(r, alloc, &limits)
}

/// What the lines of a block are counted by.
pub fn counts_of_head(head: &Head) -> Counts
    ensures { result ≡ counts_of head.now }
{
    Counts {
        nodes: head.network.names.as_slice().len() as u64,
        links: head.network.links.as_slice().len() as u64,
        pairs: head.routes.as_slice().len() as u64,
        bounded: !matches!(head.set, DemandSet::All),
    }
}

// The blocks of such a head, after the line of their count, and the last line.
#[tactic(auto, unfolding(crate::specs::Halves::read_blocks))]
fn blocks<C: Cursor>(r: &mut Reader<C>, alloc: Global, head: &Head) -> Result<Items<Block>, Stop>
    requires { FitsHead (limits_of head.now.format) head.now }
    ensures takes { Takes r.old r.new (Reads result) (read_blocks narrow_number head.now) }
{
    let limits = limits_of(head.format);
    let count = counted(r, b"blocks ", 0, limits.links)?;
    let counts = counts_of_head(head);
    let lines = BlockLines {
        limits: &limits,
        counts: &counts,
    };
    let blocks = many(r, alloc, count, &lines)?;
    closing(r)?;
    Ok(blocks)
}

/// A whole certificate of either format, whether or not its rules hold.
pub fn certificate<C: Cursor>(r: &mut Reader<C>, alloc: Global) -> Result<Certificate, Stop>
    ensures takes { Takes r.old r.new (Reads result) (read_certificate narrow_number) }
{
    let head = format_and_head(r, alloc)?;
    let blocks = blocks(r, alloc, &head)?;
    Ok(Certificate { head, blocks })
}
