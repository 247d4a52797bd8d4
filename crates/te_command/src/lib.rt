//! The program's table of commands, and the top call over it, from the arguments to the status.
#![tactic(auto)]

pub mod laws;
mod serving;
mod top;
mod words;

pub use serving::serve;
pub use top::run;
