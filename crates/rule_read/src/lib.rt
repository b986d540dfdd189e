//! Rules from JSON, as Chrome's reference of declarativeNetRequest writes them.
//!
//! What a rule is read as, and which refusal comes first, stands in `json_spec`, `specs/ReadRule.antt`.
#![tactic(auto)]

mod conditions;
mod frames;
mod numbers;
mod response_tests;
mod rules;
mod taken_ids;

pub use dnr_rules::Rule;
pub use rule_spec::{HeaderCause, PlacedRefusal, RuleKind, RulePath, RuleRefusal};
pub use rules::{read_next, read_rule, read_rules};
pub use taken_ids::TakenIds;
