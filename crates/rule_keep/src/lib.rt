//! The dynamic rules of one extension, kept in a file: a crash at any moment loses no update that was acknowledged.
//!
//! What a file keeps stands in `keep_spec`, `specs/Kept.antt`, and what a kept list has to do with the images that a
//! crash may leave in `specs/Agrees.antt` there.
#![tactic(auto)]

mod handed;
mod keep;
mod listed;
mod opening;
mod payload;
mod refusals;
mod replayed;
mod take;

pub use dnr_base::NoMemory;
pub use handed::{UpdateCount, Updates};
pub use keep::Keep;
pub use keep_records::{Disk, Failed};
pub use refusals::{OpenRefusal, PutRefusal};
pub use take::is_dynamic_of;
