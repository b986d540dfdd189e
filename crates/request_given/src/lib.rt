//! A request that is given by its parts, as numbers and bytes, in place of a line.
//!
//! What the parts read as stands in `specs/Reads.antt`: each as the same text in a line does.
#![tactic(auto)]

mod given;
mod reading;

pub use given::{GivenFrame, GivenHeader, GivenRequest};
pub use reading::read_request;
