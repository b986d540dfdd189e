//! Updates of what is installed: what each changes, when it is refused, and the state after a list of entries.
//!
//! The definitions stand in `specs/`, one file a subject, in the order in which `specs/Lib.antt` names them.
#![tactic(auto)]

mod examples;
mod refusal;

pub use examples::{
    batch_counts_once, batch_is_judged_in_turn, disabled_ids_stay, enabled_rulesets_have_a_limit,
    enabling_comes_last, name_is_installed_once, names_are_judged, oldest_stands_first,
    removal_comes_first, unsafe_rules_have_a_limit,
};
pub use refusal::Refusal;
