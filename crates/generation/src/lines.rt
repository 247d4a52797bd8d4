//! The lines of a summary.
ghost use Rattle.std.specs.Prelude.{◌≡◌, IfOk, string_bytes};
ghost use Rattle.generation.specs.Text.{answer_word, first_lines, last_lines, summary_lines};

use ratio_checker::Finding;
use std::alloc::Global;
use te_model::Memory;

/// What a summary says.
#[derive(Clone, Copy)]
pub struct Summary {
    /// Nodes of the network.
    pub nodes: usize,
    /// Links of the network.
    pub links: usize,
    /// Declared pairs.
    pub pairs: usize,
    /// The ratio of the certificate, in millionths.
    pub ratio: u64,
    /// What was found of the certificate.
    pub finding: Finding,
    /// The demands of all pairs in all steps.
    pub offered: u128,
    /// What arrived of them.
    pub delivered: u128,
}

fn answer_word(finding: Finding) -> &'static str
    ensures { result.now ≡ answer_word finding }
{
    match finding {
        Finding::Yes => "yes",
        Finding::No { .. } => "no",
    }
}

// The lines of the network and the ratio.
fn first_lines(alloc: Global, summary: &Summary) -> Result<String, Memory>
    ensures { IfOk result (λ text. string_bytes text ≡ first_lines summary.now) }
{
    let Summary {
        nodes,
        links,
        pairs,
        ratio,
        ..
    } = summary;
    Ok(format!(in alloc; "nodes {nodes}\nlinks {links}\npairs {pairs}\nratio {ratio}\n")?)
}

// The lines of the answer and the traffic.
fn last_lines(alloc: Global, summary: &Summary) -> Result<String, Memory>
    ensures { IfOk result (λ text. string_bytes text ≡ last_lines summary.now) }
{
    let answer = answer_word(summary.finding);
    let Summary {
        offered,
        delivered,
        ..
    } = summary;
    Ok(format!(in alloc; "answer {answer}\noffered {offered}\ndelivered {delivered}\n")?)
}

/// Writes the lines. The only error is `Memory`, where memory is wanting.
pub fn print_lines(alloc: Global, summary: &Summary) -> Result<Vec<u8>, Memory>
    ensures { IfOk result (λ text. text.items ≡ summary_lines summary.now) }
{
    let mut text = first_lines(alloc, summary)?.into_bytes();
    let rest = last_lines(alloc, summary)?;
    text.extend_from_slice(rest.as_bytes())?;
    Ok(text)
}
