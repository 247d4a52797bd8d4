//! The lines of paths: those that the demands of a step take.
ghost use Rattle.std.specs.Prelude.{◌≡◌, ◌++◌, ◌∷◌, IsTrue, OnOk, decimal};
ghost use Rattle.std.specs.List.{flat_map};
ghost use Rattle.te_model.specs.Network.{is_well_formed, node_count};
ghost use Rattle.te_model.specs.Pairs.{IsNodePair};
ghost use Rattle.te_model.specs.Text.{numbers};
ghost use Rattle.cert_text.specs.Pieces.{with_space};
ghost use Rattle.local_recovery.specs.Rates.{IsRates};
ghost use Rattle.step_detail.specs.Paths.{path_lines_of, weighted_path_line, weighted_path_lines};

use crate::names::name_of;
use experiment::fields::{print_field, print_number};
use series_simulation::SimulatedStep;
use te_model::{Memory, Network, PairRoutes, PathShare};

/// Writes a number in decimal.
fn print_decimal(text: &mut Vec<u8>, number: u32) -> Result<(), Memory>
    ensures { OnOk result (text.new.items ≡ text.old.items ++ decimal number) }
{
    text.extend_from_slice(itoa::Buffer::new().format(number).as_bytes())?;
    Ok(())
}

/// Writes each number behind a blank.
fn print_numbers_after(text: &mut Vec<u8>, numbers: &[u32]) -> Result<(), Memory>
    ensures { OnOk result (text.new.items ≡ text.old.items ++ flat_map with_space numbers.now) }
{
    for number in numbers {
        text.push(b' ')?;
        print_decimal(text, *number)?;
    }
    Ok(())
}

/// Writes the numbers of some links, a blank between two.
fn print_first_and_others(text: &mut Vec<u8>, first: u32, others: &[u32]) -> Result<(), Memory>
    ensures { OnOk result (text.new.items ≡ text.old.items ++ numbers (first ∷ others.now)) }
{
    print_decimal(text, first)?;
    print_numbers_after(text, others)
}

/// Writes the numbers of the links, a blank between two.
fn print_link_numbers(text: &mut Vec<u8>, links: &[u32]) -> Result<(), Memory>
    ensures { OnOk result (text.new.items ≡ text.old.items ++ numbers links.now) }
{
    match links {
        [] => Ok(()),
        [first, others @ ..] => print_first_and_others(text, *first, others),
    }
}

/// Writes the line of a path of the pair between nodes of these names.
fn print_path(
    text: &mut Vec<u8>,
    word: &str,
    source: &str,
    target: &str,
    path: &PathShare,
) -> Result<(), Memory>
    ensures { OnOk result (text.new.items ≡ text.old.items ++ weighted_path_line word.now source.now target.now path.now) }
{
    text.extend_from_slice(word.as_bytes())?;
    print_field(text, source)?;
    print_field(text, target)?;
    print_number(text, u128::from(path.weight))?;
    text.push(b',')?;
    print_link_numbers(text, path.links.as_slice())?;
    text.push(b'\n')?;
    Ok(())
}

/// Writes a line for each path of the pair, in order.
fn print_pair_paths(
    text: &mut Vec<u8>,
    word: &str,
    net: &Network,
    routes: &PairRoutes,
) -> Result<(), Memory>
    requires { IsNodePair (node_count net.now) routes.now.pair }
    ensures { OnOk result (text.new.items ≡ text.old.items ++ path_lines_of net.now word.now routes.now) }
{
    let source = name_of(net, routes.pair.src);
    let target = name_of(net, routes.pair.dst);
    for path in routes.paths.as_slice() {
        print_path(text, word, source, target, path)?;
    }
    Ok(())
}

/// Writes a line for each path of each declared pair, in order.
pub fn print_paths(
    text: &mut Vec<u8>,
    word: &str,
    net: &Network,
    step: &SimulatedStep,
) -> Result<(), Memory>
    requires network { IsTrue (is_well_formed net.now) }
    requires rates { IsRates net.now step.now.rates.routes }
    ensures { OnOk result (text.new.items ≡ text.old.items ++ weighted_path_lines net.now word.now step.now) }
{
    for routes in step.rates.routes.as_slice() {
        print_pair_paths(text, word, net, routes)?;
    }
    Ok(())
}
