//! What a file keeps of the dynamic updates of one extension, what a kept list has to do with the images that a crash
//! may leave, and the text of an update.
//!
//! The definitions stand in `specs/`, one file a subject, in the order in which `specs/Lib.antt` names them. What
//! records are stands in `keep_records`, `specs/Records.antt`.
#![tactic(auto)]

mod examples;

pub use examples::{
    other_payloads_are_none, records_keep_updates, short_files_keep_nothing,
    updates_are_accepted_once,
};
