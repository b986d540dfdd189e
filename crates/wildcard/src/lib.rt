//! Patterns with `*` and `?` that a whole text fits or does not.
//!
//! What the pieces of a pattern take stands in `dnr_spec`, `specs/Wildcards.antt`.
#![tactic(auto)]

mod noted;
mod places;
mod walk;
mod words;

pub use dnr_spec::Piece;
pub use walk::fits;
