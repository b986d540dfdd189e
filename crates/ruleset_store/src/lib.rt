//! What is installed: extensions with their rules, and the store of them, which judges updates and applies them.
//!
//! What they are stands in `rule_spec`, `specs/State.antt`; what each update changes and when it is refused in
//! `update_spec`. Rulesets, and each rule that is added, stand behind shared handles, so that a store after an update
//! copies no rule.
#![tactic(auto)]

mod changes;
mod count;
mod counts;
mod extension;
mod ids;
mod installed;
mod installed_set;
mod limits;
mod names;
mod replacing;
mod rule_set;
mod static_index;
mod store;
mod update;

pub use dnr_base::{Items, NoMemory, Text};
pub use dnr_rules::Rule;
pub use extension::Extension;
pub use installed::InstalledExtension;
pub use installed_set::InstalledSet;
pub use match_patterns::MatchPattern;
pub use rule_segments::{
    IndexedRules, KeptRules, KnownRules, LendsRule, ListIndex, OffIds, RuleList, Segment,
    SharedRule,
};
pub use rule_set::{RuleSet, SharedSet};
pub use static_index::StaticIndex;
pub use store::Store;
pub use update::{BatchRefusal, Update};
pub use update_spec::Refusal;
