//! Match patterns: read once, then asked whether they fit a URL, and whether they cover a host.
//!
//! What they fit stands in `dnr_spec`, `specs/MatchPatterns.antt`.
#![tactic(auto)]

mod hosts;
mod parts;
mod path;
mod pattern;
mod stars;

pub use dnr_spec::NoMemory;
pub use pattern::MatchPattern;
