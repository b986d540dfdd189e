//! The fields of a rule's condition from JSON: which forms they have, and which of them is refused first.
//!
//! What each is read as stands in `json_spec`, `specs/RuleFields.antt`.
#![tactic(auto)]

mod condition;
mod fields;
mod forms;
mod response_tests;

pub use fields::{Fields, read_fields};
pub use response_tests::TestFields;
