//! Printing a certificate: each part is put at the end of one buffer.
ghost use Rattle.std.specs.Prelude.{◌≡◌, ℕ, List, ◌++◌, ◌∷◌, [], OnOk, IfOk, codes, length};
ghost use Rattle.std.specs.List.{flat_map};
ghost use Rattle.cert_text.specs.Pieces.{listing_text, counted_text, link_text, row_text, with_line_end, network_text, path_text, pair_text, routes_text, set_text, format_text, head_text, number_line as number_line_text, sides_text, block_text, certificate_text};
ghost use Rattle.cert_text.specs.Grammar.{has_bounds};
ghost use Rattle.te_model.specs.Text.{text};

use itoa::{Buffer, Integer};
use std::alloc::{AllocError, Global};
use te_model::{
    Block, Certificate, DemandSet, Head, Link, Memory, Name, Network, PairRoutes, PathShare, Row,
};

fn number<I: Integer>(out: &mut Vec<u8>, n: I) -> Result<(), AllocError>
    ensures { OnOk result (out.new.items ≡ out.old.items ++ I.text n) }
{
    let mut buffer = Buffer::new();
    out.extend_from_slice(buffer.format(n).as_bytes())
}

fn spaced<I: Integer>(out: &mut Vec<u8>, n: I) -> Result<(), AllocError>
    ensures { OnOk result (out.new.items ≡ out.old.items ++ 32 ∷ I.text n) }
{
    out.push(b' ')?;
    number(out, n)
}

fn spaced_all<I: Integer>(out: &mut Vec<u8>, list: &[I]) -> Result<(), AllocError>
    ensures { OnOk result (out.new.items ≡ out.old.items ++ flat_map (λ n. 32 ∷ I.text n) list.now) }
{
    for n in list {
        spaced(out, *n)?;
    }
    Ok(())
}

fn end_line(out: &mut Vec<u8>) -> Result<(), AllocError>
    ensures { OnOk result (out.new.items ≡ out.old.items ++ 10 ∷ []) }
{
    out.push(b'\n')?;
    Ok(())
}

// A line of numbers that a word begins.
fn listing(out: &mut Vec<u8>, word: &[u8], list: &[u64]) -> Result<(), AllocError>
    ensures { OnOk result (out.new.items ≡ out.old.items ++ listing_text word.now list.now) }
{
    out.extend_from_slice(word)?;
    spaced_all(out, list)?;
    end_line(out)
}

// A line of a word and one number.
fn counted(out: &mut Vec<u8>, word: &[u8], count: u64) -> Result<(), AllocError>
    ensures { OnOk result (out.new.items ≡ out.old.items ++ counted_text word.now count) }
{
    out.extend_from_slice(word)?;
    number(out, count)?;
    end_line(out)
}

/// What is printed on lines of its own.
trait Lines {
    /// The text of these lines.
    ghost text: { Self → List ℕ };

    /// Puts the text at the end.
    ///
    /// Answers an error only where memory runs out.
    fn put(&self, out: &mut Vec<u8>) -> Result<(), AllocError>
        ensures { OnOk result (out.new.items ≡ out.old.items ++ text self.now) };
}

// The lines of each item, one after the other.
fn each<T: Lines>(out: &mut Vec<u8>, items: &[T]) -> Result<(), AllocError>
    ensures { OnOk result (out.new.items ≡ out.old.items ++ flat_map T.Lines.text items.now) }
{
    for item in items {
        item.put(out)?;
    }
    Ok(())
}

impl Lines for Name {
    ghost text = { with_line_end };

    fn put(&self, out: &mut Vec<u8>) -> Result<(), AllocError> {
        out.extend_from_slice(self.as_str().as_bytes())?;
        end_line(out)
    }
}

impl Lines for Link {
    ghost text = { link_text };

    fn put(&self, out: &mut Vec<u8>) -> Result<(), AllocError> {
        number(out, self.tail)?;
        spaced(out, self.head)?;
        spaced(out, self.capacity)?;
        spaced(out, self.cost)?;
        end_line(out)
    }
}

fn network(out: &mut Vec<u8>, net: &Network) -> Result<(), AllocError>
    ensures { OnOk result (out.new.items ≡ out.old.items ++ network_text net.now) }
{
    counted(out, b"nodes ", net.names.as_slice().len() as u64)?;
    each(out, net.names.as_slice())?;
    counted(out, b"links ", net.links.as_slice().len() as u64)?;
    each(out, net.links.as_slice())
}

impl Lines for PathShare {
    ghost text = { path_text };

    fn put(&self, out: &mut Vec<u8>) -> Result<(), AllocError> {
        number(out, self.weight)?;
        spaced(out, self.links.as_slice().len())?;
        spaced_all(out, self.links.as_slice())?;
        end_line(out)
    }
}

impl Lines for PairRoutes {
    ghost text = { pair_text };

    fn put(&self, out: &mut Vec<u8>) -> Result<(), AllocError> {
        number(out, self.pair.src)?;
        spaced(out, self.pair.dst)?;
        spaced(out, self.paths.as_slice().len())?;
        end_line(out)?;
        each(out, self.paths.as_slice())
    }
}

fn set_lines(out: &mut Vec<u8>, set: &DemandSet) -> Result<(), AllocError>
    ensures { OnOk result (out.new.items ≡ out.old.items ++ set_text set.now) }
{
    match set {
        DemandSet::All => out.extend_from_slice(b"set all\n"),
        DemandSet::Margin { num, den, base } => {
            out.extend_from_slice(b"set margin ")?;
            number(out, *num)?;
            spaced(out, *den)?;
            end_line(out)?;
            listing(out, b"base", base.demand.as_slice())
        }
        DemandSet::Box { lower, upper } => {
            out.extend_from_slice(b"set box\n")?;
            listing(out, b"lower", lower.demand.as_slice())?;
            listing(out, b"upper", upper.demand.as_slice())
        }
    }
}

fn head_lines(out: &mut Vec<u8>, head: &Head) -> Result<(), AllocError>
    ensures { OnOk result (out.new.items ≡ out.old.items ++ head_text head.now) }
{
    network(out, &head.network)?;
    counted(out, b"pairs ", head.routes.as_slice().len() as u64)?;
    each(out, head.routes.as_slice())?;
    set_lines(out, &head.set)?;
    counted(out, b"ratio ", head.ratio)
}

fn first_and_others(out: &mut Vec<u8>, first: u64, others: &[u64]) -> Result<(), AllocError>
    ensures { OnOk result (out.new.items ≡ out.old.items ++ number_line_text (first ∷ others.now)) }
{
    number(out, first)?;
    spaced_all(out, others)?;
    end_line(out)
}

fn number_line(out: &mut Vec<u8>, list: &[u64]) -> Result<(), AllocError>
    ensures { OnOk result (out.new.items ≡ out.old.items ++ number_line_text list.now) }
{
    match list {
        [] => out.extend_from_slice(b"\n"),
        [first, others @ ..] => first_and_others(out, *first, others),
    }
}

impl Lines for Row {
    ghost text = { row_text };

    fn put(&self, out: &mut Vec<u8>) -> Result<(), AllocError> {
        number(out, self.source)?;
        spaced_all(out, self.potential.as_slice())?;
        end_line(out)
    }
}

fn sides(out: &mut Vec<u8>, bounded: bool, block: &Block) -> Result<(), AllocError>
    ensures { OnOk result (out.new.items ≡ out.old.items ++ sides_text bounded (block.now.plus, block.now.minus)) }
{
    if bounded {
        listing(out, b"plus", block.plus.as_slice())?;
        listing(out, b"minus", block.minus.as_slice())?;
    }
    Ok(())
}

fn block_line(out: &mut Vec<u8>, block: &Block) -> Result<(), AllocError>
    ensures { OnOk result (out.new.items ≡ out.old.items ++ number_line_text (block.now.link ∷ block.now.a ∷ block.now.b ∷ length block.now.rows ∷ [])) }
{
    number(out, block.link)?;
    spaced(out, block.a)?;
    spaced(out, block.b)?;
    spaced(out, block.rows.as_slice().len())?;
    end_line(out)
}

fn block_lines(out: &mut Vec<u8>, bounded: bool, block: &Block) -> Result<(), AllocError>
    ensures { OnOk result (out.new.items ≡ out.old.items ++ block_text bounded block.now) }
{
    block_line(out, block)?;
    number_line(out, block.weights.as_slice())?;
    each(out, block.rows.as_slice())?;
    sides(out, bounded, block)
}

fn all_blocks(out: &mut Vec<u8>, bounded: bool, blocks: &[Block]) -> Result<(), AllocError>
    ensures { OnOk result (out.new.items ≡ out.old.items ++ flat_map (block_text bounded) blocks.now) }
{
    for block in blocks {
        block_lines(out, bounded, block)?;
    }
    Ok(())
}

fn is_bounded(set: &DemandSet) -> bool
    ensures { result ≡ has_bounds set.now }
{
    !matches!(set, DemandSet::All)
}

fn first_line(out: &mut Vec<u8>, format: u32) -> Result<(), AllocError>
    ensures { OnOk result (out.new.items ≡ out.old.items ++ format_text format) }
{
    counted(out, b"yates-ratio ", u64::from(format))
}

fn whole(out: &mut Vec<u8>, cert: &Certificate) -> Result<(), AllocError>
    ensures { OnOk result (out.new.items ≡ out.old.items ++ certificate_text cert.now) }
{
    let bounded = is_bounded(&cert.head.set);
    first_line(out, cert.head.format)?;
    head_lines(out, &cert.head)?;
    counted(out, b"blocks ", cert.blocks.as_slice().len() as u64)?;
    all_blocks(out, bounded, cert.blocks.as_slice())?;
    out.extend_from_slice(b"end\n")?;
    Ok(())
}

/// Writes the certificate's file: the one text that spells it, of which [`read`](crate::read) gives the certificate back.
///
/// Answers an error only where memory runs out.
pub fn print(alloc: Global, cert: &Certificate) -> Result<Vec<u8>, Memory>
    ensures spelling { IfOk result (λ file. file.items ≡ text cert.now) }
{
    let mut out = Vec::new(alloc);
    whole(&mut out, cert)?;
    Ok(out)
}
