//! Reading the file of a certificate piece by piece, one block at a time.
#![tactic(auto)]

mod block_lines;
mod block_reader;
mod blocks;
mod file_limit;
mod laws;
mod lines;
mod opening;
mod parts;
mod room;
mod stream_fault;
mod taking;
mod window;

pub use block_reader::BlockReader;
pub use laws::{reading_looks_so_far, windows_stand_in_what_is_told};
pub use stream_fault::StreamFault;
pub use window::{State, Window};
