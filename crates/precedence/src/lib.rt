//! Which rule decides a request: inside an extension, and across extensions.
//!
//! The order stands in `dnr_spec`, `specs/Order.antt`, in the terms of Chrome's reference. No call takes
//! memory.
#![tactic(auto)]

mod laws;
mod order;
mod winners;

pub use dnr_base::{Candidate, Rank, Verb, Winner};
pub use laws::{best_is_kept, candidates_are_ordered, winners_are_ordered};
pub use order::beats;
pub use winners::{across, inside};
