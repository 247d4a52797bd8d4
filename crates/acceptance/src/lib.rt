//! Tests of the whole program: its top call, over files and sinks in memory. There is nothing else here.
#![tactic(auto)]

#[cfg(test)]
mod arguments;
#[cfg(test)]
mod call;
#[cfg(test)]
mod calls;
#[cfg(test)]
mod changes;
#[cfg(test)]
mod commands;
#[cfg(test)]
mod faults;
#[cfg(test)]
mod texts;
