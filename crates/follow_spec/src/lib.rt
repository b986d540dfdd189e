//! Where a request leads: the hops of its redirects and upgrades.
//!
//! The definition stands in `specs/Trace.antt`.
#![tactic(auto)]

mod end;
mod examples;
mod laws;
mod next;

pub use end::End;
pub use examples::{
    bad_targets_end_a_trace, loops_end_where_they_close, traces_are_bounded,
    traces_follow_redirects, upgrades_are_followed,
};
pub use laws::hops_are_of_requests;
pub use next::Next;
