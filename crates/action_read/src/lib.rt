//! The action of a rule from JSON: redirects, transforms and header changes, and which of them is
//! refused first.
//!
//! What each is read as stands in `json_spec`, `specs/RuleAction.antt`.
#![tactic(auto)]

mod action;
mod headers;
mod redirects;
mod transforms;

pub use action::read_action;
