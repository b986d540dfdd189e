//! A file as the kept list sees it: what a read gives, and what a crash may leave; and such a file in memory.
//!
//! What a crash may leave stands in `specs/Images.antt`, and what is meant by a moment in `specs/Moments.antt`.
#![tactic(auto)]

mod call;
mod disk;
mod durable;
mod memory;
mod parts;

pub use call::{Bytes, Call};
pub use disk::Disk;
pub use dnr_base::{Failed, NoMemory};
pub use durable::{cut_through, write_through};
pub use memory::MemoryDisk;
