//! The lines of links: what each is asked to carry in a step, and what it carries.
ghost use Rattle.std.specs.Prelude.{◌≡◌, ◌++◌, ◌^◌, ◌<◌, ◌≤◌, EachIndex, IsTrue, OnOk, length, slice_index};
ghost use Rattle.te_model.specs.Network.{is_well_formed, link_count};
ghost use Rattle.local_recovery.specs.Rates.{IsRates};
ghost use Rattle.step_detail.specs.Links.{yes_or_no, link_use_line, link_use_lines};

use crate::names::name_of;
use experiment::fields::{print_field, print_number};
use flow_sim::asked_units;
use series_simulation::{SimulatedStep, utilisation};
use std::alloc::Global;
use te_model::{Matrix, Memory, Network};

/// The word for an answer.
fn yes_or_no(answer: bool) -> &'static str
    ensures { result.now ≡ yes_or_no answer }
{
    if answer { "yes" } else { "no" }
}

/// Writes the line of a link, of which so much is asked and which carries so much.
fn print_link(
    text: &mut Vec<u8>,
    word: &str,
    net: &Network,
    failed: &[bool],
    asked: &[u64],
    carried: &[u64],
    link: usize,
) -> Result<(), Memory>
    requires network { IsTrue (is_well_formed net.now) }
    requires link { link < link_count net.now }
    requires marks { length failed.now ≡ link_count net.now }
    requires asked { length asked.now ≡ link_count net.now }
    requires carried { length carried.now ≡ link_count net.now }
    ensures { OnOk result (text.new.items ≡ text.old.items ++ link_use_line net.now failed.now asked.now carried.now word.now link) }
{
    let ends = net.links.as_slice()[link];
    text.extend_from_slice(word.as_bytes())?;
    print_number(text, link as u128)?;
    print_field(text, name_of(net, ends.tail))?;
    print_field(text, name_of(net, ends.head))?;
    print_number(text, u128::from(ends.capacity))?;
    print_field(text, yes_or_no(failed[link]))?;
    print_number(text, u128::from(asked[link]))?;
    print_number(text, u128::from(carried[link]))?;
    print_number(text, utilisation(asked[link], ends.capacity))?;
    print_number(text, utilisation(carried[link], ends.capacity))?;
    text.push(b'\n')?;
    Ok(())
}

/// Writes a line for each link, ascending. `failed` has one mark for each link, and `matrix` one demand for each pair of the step.
pub fn print_links(
    alloc: Global,
    text: &mut Vec<u8>,
    word: &str,
    net: &Network,
    failed: &[bool],
    matrix: &Matrix,
    step: &SimulatedStep,
) -> Result<(), Memory>
    requires network { IsTrue (is_well_formed net.now) }
    requires marks { length failed.now ≡ link_count net.now }
    requires rates { IsRates net.now step.now.rates.routes }
    requires carried { length step.now.row.result.carried ≡ link_count net.now }
    requires demands { length matrix.now.demand ≡ length step.now.rates.routes }
    requires small { EachIndex matrix.now.demand (λ p. slice_index matrix.now.demand p ≤ 2 ^ 32) }
    ensures { OnOk result (text.new.items ≡ text.old.items ++ link_use_lines net.now failed.now matrix.now.demand word.now step.now) }
{
    let asked = asked_units(alloc, net, &step.rates, matrix)?;
    let units = asked.as_slice();
    let carried = step.row.result.carried.as_slice();
    let count = net.links.as_slice().len();
    for link in 0..count {
        print_link(text, word, net, failed, units, carried, link)?;
    }
    Ok(())
}
