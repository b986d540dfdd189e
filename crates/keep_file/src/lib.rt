//! A file of the file system as the disk of a kept list.
#![tactic(auto)]

mod file_disk;
mod open;

pub use file_disk::FileDisk;
pub use keep_disk::{Disk, Failed};
