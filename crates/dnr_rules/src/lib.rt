//! Rules: what they are made of, and what every rule keeps.
//!
//! What a rule is stands in `rule_spec`, `specs/Rule.antt`, and what it keeps in `specs/IsRule.antt` there.
#![tactic(auto)]

mod action;
mod condition;
mod parts;
mod rest;
mod rule;

pub use action::{Action, HeaderOps};
pub use condition::Condition;
pub use header_tests::{HeaderTest, ValuePattern};
pub use parts::{ConditionParts, RareParts, RuleParts};
pub use rule::Rule;
pub use rule_spec::{HeaderCause, PlacedRefusal, RuleKind, RulePath, RuleRefusal};
