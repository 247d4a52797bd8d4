//! The words of the command line, and the table of the commands.
ghost use Rattle.std.specs.Prelude.{◌≡◌, [], ◌∷◌, map, string_bytes};
ghost use Rattle.std.specs.Option.{option_map};
ghost use Rattle.te_command.specs.Commands.{break_down, command_of};
ghost use Rattle.te_command.specs.Asked.{command_meant};
ghost use Rattle.plan_commands.specs.BreakDown.{step_number};

use certificate_commands::{
    Attack, Bounds, Challenge, Check, CheckNetwork, CheckWitness, Convert, Reprice, Tighten,
};
use command_frame::{Answer, Ask, Fault, Table};
use plan_commands::{BreakDown, Generate, Publish, RunPlan, generate_of, step_of};
use routing_commands::{BoundHose, CheckHose, CheckRates, Protect, Update, failures_of};
use simulation_command::Simulate;
use std::alloc::Global;
use step_detail::Breakdown;
use te_ports::Depot;

/// What the words ask for.
#[derive(Clone, Copy)]
pub enum Command<'a> {
    Attack(Attack<'a>),
    Challenge(Challenge<'a>),
    Check(Check<'a>),
    CheckNetwork(CheckNetwork<'a>),
    CheckWitness(CheckWitness<'a>),
    Convert(Convert<'a>),
    Publish(Publish<'a>),
    Run(RunPlan<'a>),
    Generate(Generate),
    Update(Update<'a>),
    Protect(Protect<'a>),
    CheckRates(CheckRates<'a>),
    BoundHose(BoundHose<'a>),
    CheckHose(CheckHose<'a>),
    Bounds(Bounds<'a>),
    Reprice(Reprice<'a>),
    Tighten(Tighten<'a>),
    BreakDown(BreakDown<'a>),
    Simulate(Simulate<'a>),
}

impl<'a> Ask for Command<'a> {
    ghost use Rattle.te_command.specs.Commands.{reading_of};

    ghost reading = { λ c. reading_of (command_meant c) };

    fn answer<D: Depot>(&self, alloc: Global, depot: &mut D) -> Result<Answer, Fault> {
        match self {
            Command::Attack(command) => command.answer(alloc, depot),
            Command::Challenge(command) => command.answer(alloc, depot),
            Command::Check(command) => command.answer(alloc, depot),
            Command::CheckNetwork(command) => command.answer(alloc, depot),
            Command::CheckWitness(command) => command.answer(alloc, depot),
            Command::Convert(command) => command.answer(alloc, depot),
            Command::Publish(command) => command.answer(alloc, depot),
            Command::Run(command) => command.answer(alloc, depot),
            Command::Generate(command) => command.answer(alloc, depot),
            Command::Update(command) => command.answer(alloc, depot),
            Command::Protect(command) => command.answer(alloc, depot),
            Command::CheckRates(command) => command.answer(alloc, depot),
            Command::BoundHose(command) => command.answer(alloc, depot),
            Command::CheckHose(command) => command.answer(alloc, depot),
            Command::Bounds(command) => command.answer(alloc, depot),
            Command::Reprice(command) => command.answer(alloc, depot),
            Command::Tighten(command) => command.answer(alloc, depot),
            Command::BreakDown(command) => command.answer(alloc, depot),
            Command::Simulate(command) => command.answer(alloc, depot),
        }
    }
}

/// The table of the program's commands.
#[derive(Clone, Copy)]
pub struct Commands;

impl Table for Commands {
    ghost use Rattle.te_command.specs.Commands.{Command as CommandMeant, commands};

    ghost Command = { CommandMeant };

    ghost table = { commands };

    fn answer<D: Depot>(
        &self,
        alloc: Global,
        words: &[String],
        depot: &mut D,
    ) -> Option<Result<Answer, Fault>> {
        match command_of(words) {
            Some(command) => Some(command.answer(alloc, depot)),
            None => None,
        }
    }
}

/// The command of the words, where they are one of the forms.
pub fn command_of(words: &[String]) -> Option<Command<'_>>
    ensures { option_map command_meant result ≡ command_of (map string_bytes words.now) }
{
    match words {
        [word, file] => command_with_file(word.as_str(), file.as_str()),
        [word, first, second] => command_with_two(word.as_str(), first.as_str(), second.as_str()),
        [word, first, second, third] => command_with_three(
            word.as_str(),
            first.as_str(),
            second.as_str(),
            third.as_str(),
        ),
        _ => None,
    }
}

// The command of a word and the name of a file.
fn command_with_file<'a>(word: &str, file: &'a str) -> Option<Command<'a>>
    ensures { option_map command_meant result ≡ command_of (word.now ∷ file.now ∷ []) }
{
    if word == "attack" {
        Some(Command::Attack(Attack { certificate: file }))
    } else if word == "challenge" {
        Some(Command::Challenge(Challenge { certificate: file }))
    } else if word == "check" {
        Some(Command::Check(Check { certificate: file }))
    } else if word == "convert" {
        Some(Command::Convert(Convert { certificate: file }))
    } else if word == "publish" {
        Some(Command::Publish(Publish { plan: file }))
    } else if word == "run" {
        Some(Command::Run(RunPlan { plan: file }))
    } else if word == "bounds" {
        Some(Command::Bounds(Bounds { certificate: file }))
    } else if word == "tighten" {
        Some(Command::Tighten(Tighten { certificate: file }))
    } else {
        None
    }
}

// The command of a word and two more.
fn command_with_two<'a>(word: &str, first: &'a str, second: &'a str) -> Option<Command<'a>>
    ensures { option_map command_meant result ≡ command_of (word.now ∷ first.now ∷ second.now ∷ []) }
{
    if word == "check" {
        Some(Command::CheckNetwork(CheckNetwork {
            certificate: first,
            topology: second,
        }))
    } else if word == "check-witness" {
        Some(Command::CheckWitness(CheckWitness {
            certificate: first,
            witness: second,
        }))
    } else if word == "gen" {
        let command = generate_of(first, second)?;
        Some(Command::Generate(command))
    } else if word == "hose" {
        Some(Command::BoundHose(BoundHose {
            certificate: first,
            bounds: second,
        }))
    } else if word == "check-hose" {
        Some(Command::CheckHose(CheckHose {
            certificate: first,
            hose: second,
        }))
    } else if word == "reprice" {
        Some(Command::Reprice(Reprice {
            certificate: first,
            topology: second,
        }))
    } else if word == "simulate" {
        Some(Command::Simulate(Simulate {
            certificate: first,
            plan: second,
        }))
    } else if word == "links" {
        break_down_by(Breakdown::Links, first, second)
    } else if word == "pairs" {
        break_down_by(Breakdown::Pairs, first, second)
    } else if word == "paths" {
        break_down_by(Breakdown::Paths, first, second)
    } else {
        None
    }
}

// The breakdown of a step of a plan, where the word is the decimal of a step.
fn break_down_by<'a>(breakdown: Breakdown, plan: &'a str, step: &str) -> Option<Command<'a>>
    ensures { option_map command_meant result ≡ option_map (break_down breakdown plan.now) (step_number step.now) }
{
    let step = step_of(step)?;
    Some(Command::BreakDown(BreakDown {
        breakdown,
        plan,
        step,
    }))
}

// The command of a word and three more.
fn command_with_three<'a>(
    word: &str,
    first: &'a str,
    second: &'a str,
    third: &'a str,
) -> Option<Command<'a>>
    ensures { option_map command_meant result ≡ command_of (word.now ∷ first.now ∷ second.now ∷ third.now ∷ []) }
{
    if word == "update" {
        Some(Command::Update(Update {
            before: first,
            after: second,
            matrices: third,
        }))
    } else if word == "check-rates" {
        Some(Command::CheckRates(CheckRates {
            certificate: first,
            matrices: second,
            rates: third,
        }))
    } else if word == "protect" {
        let failures = failures_of(third)?;
        Some(Command::Protect(Protect {
            certificate: first,
            matrices: second,
            failures,
        }))
    } else {
        None
    }
}
