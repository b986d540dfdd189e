//! What a round of a session says whose seats answer beside its writer: the lines that were read, what a seat may say to
//! those that ask it, what the writer says to the others, and what they make together.
//!
//! A seat answers after some of the updates that lie between the round's beginning and its end. `specs/Rounds.antt` has
//! what is said so; the law is that a session may say it.
#![tactic(auto)]

mod law;
mod read_line;

pub use law::answered_is_served;
pub use read_line::ReadLine;
