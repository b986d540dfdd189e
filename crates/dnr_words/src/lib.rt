//! The command line: which command the words after the program's name say.
//!
//! What each word means stands in `session_spec`, `specs/Words.antt`. Nothing here takes memory, but for the list
//! that [`Serving::installed`] makes.
#![tactic(auto)]

mod names;
mod numbers;
mod options;
mod sample;
mod serving;
mod task;

pub use names::{is_extension_name, is_file_name};
pub use options::Installed;
pub use sample::{Sample, read_sample};
pub use serving::Serving;
pub use task::{Task, read_words};
