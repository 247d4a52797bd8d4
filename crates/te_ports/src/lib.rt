//! Where the program reads and writes. A depot gives the bytes of named files, and a sink takes bytes.
//!
//! The traits say what a failed read or write may leave behind, and count the failures, so that code above them can
//! say in its own contract that it answers a failure only where one came. A depot also keeps on record what its reads
//! gave, in their order, so that what is said of a file need not hang on the depot telling its content. The depot and the
//! sink of the system have their records from the calls of the system, which they note with its answers.
#![tactic(auto)]

mod disk;
mod file_name;
mod laws;
mod limit;
mod log;
mod memory_depot;
mod memory_sink;
mod port;
mod reading;
mod real_depot;
mod real_sink;
mod record_depot;
mod sure_depot;
mod sure_sink;
mod system;
mod writing;

pub use disk::{Disk, OpenFile, SystemDisk, read_call};
pub use file_name::FileName;
pub use laws::{reads_agree_with_what_is_told, reads_are_in_order};
pub use limit::Limit;
pub use log::{Call, Log};
pub use memory_depot::MemDepot;
pub use memory_sink::MemSink;
pub use port::{Depot, Failed, Sink};
pub use reading::{LoadFault, load, load_within};
pub use real_depot::RealDepot;
pub use real_sink::{RealSink, Stream, SystemStream};
pub use record_depot::{Entry, RecordDepot};
pub use sure_depot::SureDepot;
pub use sure_sink::SureSink;
pub use system::SystemFault;
pub use writing::put_all;
