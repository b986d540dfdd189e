//! Rules as JSON text, in the form in which they are read.
//!
//! What is written stands in `json_spec`, `specs/Written.antt`.
#![tactic(auto)]

mod action;
mod condition;
mod fields;
mod response_tests;
mod rules;
mod sets;

pub use dnr_base::NoMemory;
pub use dnr_rules::Rule;
pub use rules::{rule_value, write_rules};
