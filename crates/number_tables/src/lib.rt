//! Tables of words and numbers, the common form of small files: reading and printing.
#![tactic(auto)]

mod due;
mod fault;
pub mod laws;
mod line;
mod lines;
mod reader;
pub mod spelling;
mod word;
mod writer;

pub use due::DueLines;
pub use fault::TableFault;
pub use line::NumLine;
pub use lines::{TableLines, pass_over_table};
pub use reader::table;
pub use writer::{print_line, print_table};
