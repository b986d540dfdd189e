//! The commands that read a file and write one text when all is read: `check`, `compile`, `hide` and `prune`; `sample`,
//! which reads nothing; and how any command ends that stops before it answers.
//!
//! What each writes stands in `session_spec`, `specs/Out.antt`.
#![tactic(auto)]

mod checking;
mod compiling;
mod ending;
mod hiding;
mod pruning;
mod sampling;

pub use checking::check_rules;
pub use compiling::compile_list;
pub use ending::{stop_with, write_to_end};
pub use hiding::hide_page;
pub use pruning::prune_rules;
pub use sampling::make_sample;
