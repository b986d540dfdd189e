//! Where bytes come from and where they go: sources, shelves of named files and sinks, in memory and
//! real, and the lines of a source.
//!
//! Each of them counts its faults. A call answers `Failed` only where the count rose in it, so whoever
//! reads the count knows who is to blame for a failed run.
#![tactic(auto)]

mod ahead;
mod all_lines;
mod dir_shelf;
mod faultless_shelf;
mod faultless_sink;
mod faultless_source;
mod files;
mod line_refusal;
mod lines;
mod memory_shelf;
mod memory_sink;
mod memory_source;
mod output;
mod shelf;
mod sink;
mod source;

pub use all_lines::read_lines;
pub use dir_shelf::{DirShelf, read_some};
pub use dnr_base::Failed;
pub use dnr_spec::{NoMemory, Status};
pub use faultless_shelf::FaultlessShelf;
pub use faultless_sink::FaultlessSink;
pub use faultless_source::FaultlessSource;
pub use files::MemoryFile;
pub use line_refusal::LineRefusal;
pub use lines::{Lines, MAX_LINE, MAX_LINES};
pub use memory_shelf::MemoryShelf;
pub use memory_sink::MemorySink;
pub use memory_source::MemorySource;
pub use output::{Output, write_some};
pub use shelf::{Shelf, ShelfRefusal};
pub use sink::{Sink, write_all};
pub use source::Source;
