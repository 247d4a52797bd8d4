//! Tests of the frame of commands, over a table of made-up commands.
#![tactic(auto)]

#[cfg(test)]
mod calls;
mod size_file;
mod sizes;
