//! Follows a request's redirects and upgrades.
//!
//! Where a request leads is said in `follow_spec`, `specs/Trace.antt`.
#![tactic(auto)]

mod chain;
mod next;
mod refusal;
mod sent;

pub use chain::follow;
pub use dnr_verdict::Verdict;
pub use follow_spec::End;
pub use follow_trace::{Hop, Trace};
pub use refusal::FollowRefusal;
