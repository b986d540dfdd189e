//! A session that is made from a number: its rules, updates and requests are drawn, and what the requests are answered
//! is counted.
//!
//! Which they are, and what is counted, stands in `session_spec`, `specs/Sample.antt`.
#![tactic(auto)]

mod counts;
mod draws;
mod rules;
mod session;
mod summary;

pub use session_spec::Tally;
pub use summary::{Summary, summary_of};
