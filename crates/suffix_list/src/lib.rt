//! A public suffix list: read once, then asked for the registrable domain of a host, and whether a request is third
//! party.
//!
//! What the lines of a list say, and which labels of a host are its public suffix, stands in `dnr_spec`,
//! `specs/Suffixes.antt`, in the terms of publicsuffix.org.
#![tactic(auto)]

mod label;
mod list;
mod names;
mod party;
mod read;
mod rule;
mod table;
mod tables;

pub use dnr_spec::{NoMemory, SuffixRefusal};
pub use list::SuffixList;
pub use party::third_party;
