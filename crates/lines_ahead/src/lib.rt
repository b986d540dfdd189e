//! The lines of a script that are cut from it ahead of their turn, so that threads may ask them side by side what they
//! ask for. What a line reads as does not depend on it.
#![tactic(auto)]

mod asking;
mod cut_line;
mod plain;

pub use asking::{ask_all, ask_run};
pub use cut_line::CutLine;
pub use plain::PlainSearch;
