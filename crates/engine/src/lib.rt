//! An engine that a program holds in its own memory: what is installed, pattern hosts of its own, and what is kept from one
//! line to the next. It is opened over files in memory as `serve` and `match` are over files of a folder, answers the lines of
//! a script as they do, and is shared: a second engine goes on from the same state, and neither sees what the other does.
//! Nothing waits here, no thread is started, and nothing outside is read or written.
//!
//! What it answers stands in `session_spec`, `specs/Answers.antt`; how it is opened in `specs/Opening.antt` here.
#![tactic(auto)]

mod answering;
mod deciding;
mod engine;
mod installing;
mod opening;
mod refusal;
mod room;
mod sent;

pub use deciding::Undecided;
pub use engine::Engine;
pub use generation::Verdict;
pub use refusal::{AskRefusal, OpenRefusal};
pub use request_given::{GivenFrame, GivenHeader, GivenRequest};
pub use room::put_front;
pub use sent::engines_are_sent;
