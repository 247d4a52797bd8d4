//! What the scripts of `bench/` time, on one network of 64 nodes and 512 links.
//!
//! | Words | What is printed |
//! |---|---|
//! | `trees COUNT ROUNDS` | how many paths all pairs have over a mix of 1 to 16 trees |
//! | `paths SOURCES ROUNDS` | how many paths, up to four a pair, the pairs of the first 1 to 64 nodes have |
//! | `least SOURCES ROUNDS` | how many links the least paths of these pairs have |
//! | `steps SOURCES ROUNDS` | how many units these pairs lose on full links in a step, over four paths each |
//! | `alone TARGETS ROUNDS` | how many links the least walks from all nodes to the first 1 to 64 have, each sought alone |
//! | `together TARGETS ROUNDS` | the same of walks that are sought together |
//! | `links` | the links of the network, one on each line as `tail head cost` |
//! | `each` | a small case of each that counts |
//!
//! What is counted is made so many rounds; of `steps` that is the step alone, and not its paths. The status is 2 where the words
//! are none of these, 3 where memory is wanting or a print failed, and else 0.
#![tactic(auto)]

mod network;
mod pairs;
mod paths;
mod searches;
mod steps;
mod subject;
mod trees;

use crate::network::print_links;
use crate::subject::{Subject, count_on_network, subject_of};
use std::env;
use std::process::ExitCode;

const EACH: &[Subject] = &[
    Subject::Trees,
    Subject::Paths,
    Subject::LeastPaths,
    Subject::Steps,
    Subject::WalksAlone,
    Subject::WalksTogether,
];

// Prints what is counted of the subject, and gives the status.
fn print_count(rt: &HostRuntime, subject: Subject, size: u32, rounds: u32) -> u8 {
    match count_on_network(rt.alloc(), subject, size, rounds) {
        Ok(count) if println!(rt; "{count}").is_ok() => 0,
        _ => 3,
    }
}

fn print_each(rt: &HostRuntime) -> u8 {
    for subject in EACH {
        if print_count(rt, *subject, 8, 1) != 0 {
            return 3;
        }
    }
    0
}

// Prints what is counted of the subject that the first word names.
fn print_named(rt: &HostRuntime, what: &str, size: &str, rounds: &str) -> u8 {
    match (subject_of(what), size.parse::<u32>(), rounds.parse::<u32>()) {
        (Some(subject), Ok(size), Ok(rounds)) => print_count(rt, subject, size, rounds),
        _ => 2,
    }
}

fn print_by_words(rt: &HostRuntime, words: &[String]) -> u8 {
    match words {
        [what, size, rounds] => print_named(rt, what.as_str(), size.as_str(), rounds.as_str()),
        [what] if what.as_str() == "each" => print_each(rt),
        [what] if what.as_str() == "links" => print_links(rt),
        _ => 2,
    }
}

fn main(rt: HostRuntime) -> ExitCode {
    let words = match env::args(&rt) {
        Ok(args) => args.skip(1).collect::<Vec<String>>(rt.alloc()),
        Err(_) => Ok(Vec::new(rt.alloc())),
    };
    match words {
        Ok(words) => ExitCode::from(print_by_words(&rt, words.as_slice())),
        Err(_) => ExitCode::from(3),
    }
}
