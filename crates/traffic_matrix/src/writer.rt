//! Writing a matrix file.

ghost use Rattle.std.specs.Prelude.{◌≡◌, ◌≤◌, ◌++◌, All, Ok, IfOk, OnOk, IsTrue, length};
ghost use Rattle.te_model.specs.Network.{is_well_formed, node_count};
ghost use Rattle.te_model.specs.Pairs.{IsPairAmong};
ghost use Rattle.traffic_matrix.specs.Limits.{IsSeries};
ghost use Rattle.traffic_matrix.specs.Rows.{series_in};
ghost use Rattle.traffic_matrix.specs.Text.{demand_line, step_lines, series_text};

use crate::series::Series;
use std::alloc::Global;
use te_model::{Memory, Name, Network, Pair};

/// Writes a series of a network as a matrix file: the header, and then a row for each step and each declared pair, ascending,
/// demands of 0 included. Where there is a step and a pair, reading the file gives the series back.
pub fn print(alloc: Global, net: &Network, series: &Series) -> Result<Vec<u8>, Memory>
    requires network { IsTrue (is_well_formed net.now) }
    requires series { IsSeries (node_count net.now) series.now }
    ensures text { IfOk result (λ text. text.items ≡ series_text net.now series.now) }
    ensures reads_back { IfOk result (λ text. 1 ≤ length series.now.steps → 1 ≤ length series.now.pairs.list → series_in net.now text.items ≡ Ok series.now) }
{
    let names = net.names.as_slice();
    let pairs = series.pairs.list.as_slice();
    let steps = series.steps.as_slice();
    let mut text = Vec::from_slice(alloc, b"step,source,target,demand\n")?;
    for step in 0..steps.len() {
        print_step(&mut text, names, pairs, step, steps[step].demand.as_slice())?;
    }
    Ok(text)
}

// Writes the rows of a step.
fn print_step(
    text: &mut Vec<u8>,
    names: &[Name],
    pairs: &[Pair],
    step: usize,
    demands: &[u64],
) -> Result<(), Memory>
    requires pairs { All (IsPairAmong (length names.now)) pairs.now }
    requires demands { length demands.now ≡ length pairs.now }
    ensures { OnOk result (text.new.items ≡ text.old.items ++ step_lines names.now pairs.now step demands.now) }
{
    for place in 0..pairs.len() {
        let pair = pairs[place];
        let source = &names[pair.src as usize];
        let target = &names[pair.dst as usize];
        print_row(text, step, source, target, demands[place])?;
    }
    Ok(())
}

// Writes a row.
fn print_row(
    text: &mut Vec<u8>,
    step: usize,
    source: &Name,
    target: &Name,
    demand: u64,
) -> Result<(), Memory>
    ensures { OnOk result (text.new.items ≡ text.old.items ++ demand_line step source.now target.now demand) }
{
    let mut digits = itoa::Buffer::new();
    text.extend_from_slice(digits.format(step).as_bytes())?;
    text.push(b',')?;
    text.extend_from_slice(source.as_str().as_bytes())?;
    text.push(b',')?;
    text.extend_from_slice(target.as_str().as_bytes())?;
    text.push(b',')?;
    text.extend_from_slice(digits.format(demand).as_bytes())?;
    text.push(b'\n')?;
    Ok(())
}
