//! A frame of commands: the top call of a program, proved once over any table of commands.
//!
//! A command reads files one after another, each against what those before it gave, and answers. A program gives its commands as a
//! table, the type that has the trait `Table`, and calls `run` and `serve` with it.
#![tactic(auto)]

mod answer;
mod ask;
mod files;
mod kind;
pub mod laws;
mod serving;
mod table;
mod top;
mod writing;

pub use answer::{Answer, Fault};
pub use ask::Ask;
pub use files::{refuse, too_long, value_in};
pub use kind::{BytesFault, FileKind};
pub use serving::serve;
pub use table::Table;
pub use top::run;
