//! One generation in force for many readers: a writer that prepares and swaps, passes that read and never
//! wait, and notes between them.
//!
//! A clause sees of each of them the accepted entries that it knows, of one history that exists in proofs
//! alone. What is published is a generation and the entries that made it, `specs/Shared.antt`.
#![tactic(auto)]

mod answer;
mod copies;
mod copy;
mod entry;
mod law;
mod look;
mod note;
mod pair;
mod pass;
mod rule;
mod writer;

pub use answer::{Answer, Explained, ReadRefusal};
pub use entry::Entry;
pub use law::entries_are_counted;
pub use note::Note;
pub use pair::{Opening, Pair, publish_pair};
pub use pass::ReaderPass;
pub use writer::Writer;
