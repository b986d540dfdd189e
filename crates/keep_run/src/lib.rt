//! The command that keeps the dynamic rules of one extension in a file. Its one call is `run_keep`.
//!
//! What it may do stands in `keep_run_spec`, `specs/Ends.antt`.
#![tactic(auto)]

mod answers;
mod commands;
mod lines;
mod report;
mod stop;
mod words;

pub use commands::run_keep;
