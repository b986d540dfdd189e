//! Why a request fares as it does: what each extension says of it.
//!
//! The definitions stand in `specs/Explanation.antt`.
#![tactic(auto)]

mod examples;

pub use examples::{frame_is_named, lines_ascend, newest_is_explained_first};
