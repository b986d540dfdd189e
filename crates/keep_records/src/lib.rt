//! The records of a file on a disk: how they are read, how one is added, and how their end is mended, so that a crash
//! at any moment loses none that is there.
//!
//! A file is a row of records: a gate byte, a big-endian number of at least 1, and as many bytes; the next gate byte
//! follows. What stands in a file is said in `specs/Records.antt`.
#![tactic(auto)]

mod adding;
mod mend;
mod read;
mod record;

pub use adding::append;
pub use keep_disk::{Disk, Failed, NoMemory};
pub use mend::mend_end;
pub use read::{MAX_FILE, ReadRefusal, read_all};
pub use record::{first_payload, record_behind_gate};
