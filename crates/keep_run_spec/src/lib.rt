//! What the command may do that keeps the dynamic rules of one extension in a file: its words, what each line of its
//! script is told, and `EndsKeeping`, which says what it may have written on each status and what a crash may then leave.
//!
//! The definitions stand in `specs/`, one file a subject, in the order in which `specs/Lib.antt` names them.
#![tactic(auto)]

mod examples;
mod laws;

pub use examples::{
    full_files_take_none, keep_takes_three_words, kept_files_are_told, kept_ones_count,
    others_are_bad_lines,
};
pub use laws::answers_go_on;
