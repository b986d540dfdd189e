//! What a session reads before its script: rules files, suffix lists, extensions of folders and filter lists. Where a
//! file is refused the line that says so is made here, so that the layer above has one way to end.
//!
//! What is loaded stands in `session_spec`, `specs/Loading.antt`.
#![tactic(auto)]

mod files;
mod installed;
mod lists;
mod loaded;
mod rules;
mod serving;
mod stop;
mod suffixes;

pub use files::load_file;
pub use lists::{CompiledList, load_list, too_many};
pub use loaded::Loaded;
pub use rules::{load_local, load_rules};
pub use serving::load_serving;
pub use stop::Stop;
