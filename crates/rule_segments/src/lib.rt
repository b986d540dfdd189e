//! Rules in their order, over segments that states share: each segment has the index by which its rules are found.
//!
//! An update adds a segment of new rules and removes rules from older ones by their ids. Segments are made anew and
//! joined so that there are few for so many rules.
#![tactic(auto)]

mod indexed_rules;
mod joining;
mod kept_rules;
mod known_rules;
mod rule_list;
mod segment;
mod shared_rule;

pub use dnr_base::NoMemory;
pub use dnr_rules::Rule;
pub use indexed_rules::IndexedRules;
pub use kept_rules::KeptRules;
pub use known_rules::KnownRules;
pub use rule_ids::OffIds;
pub use rule_index::{LendsRule, ListIndex};
pub use rule_list::RuleList;
pub use segment::Segment;
pub use shared_rule::SharedRule;
