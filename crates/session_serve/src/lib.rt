//! Serves the script of a session: reads its lines, answers them in turn, and writes what they say round by round.
//!
//! What a session may say stands in `session_spec`, `specs/Answers.antt`, and what a round is in `specs/Rounds.antt`.
#![tactic(auto)]

mod answers;
mod deciding;
mod following;
mod line_kind;
mod round;
mod serving;
mod stop;

pub use answers::Session;
pub use deciding::{decide, explain};
pub use serving::serve_lines;
pub use stop::ServeStop;
