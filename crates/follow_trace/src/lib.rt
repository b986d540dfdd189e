//! Where a request leads, as the layers above the rules hand it on.
//!
//! A clause sees the trace of `follow_spec`, `specs/Trace.antt`.
#![tactic(auto)]

mod trace;

pub use trace::{Hop, Trace};
