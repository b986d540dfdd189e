//! Patterns of one plain domain, as filter lists and rules write most of theirs.
//!
//! Which texts they are stands in `specs/PlainDomains.antt`.
#![tactic(auto)]

mod plain;

pub use plain::plain_domain;
