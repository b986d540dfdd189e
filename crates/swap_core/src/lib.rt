//! What readers of a published copy see while a writer publishes: a machine of numbers, moved by events in
//! whatever order they come.
//!
//! The machine keeps running numbers. What they have to be is said of whole lists of events, in
//! `specs/Schedule.antt`. No call takes memory.
#![tactic(auto)]

mod event;
mod laws;
mod machine;

pub use event::Event;
pub use laws::{answers_lie_between, answers_never_fall, answers_tell_what_is_seen};
pub use machine::{MAX_PUBLISHED, Machine};
